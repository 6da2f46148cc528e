//! Laws of why some cells make no batch.

ghost use Rattle.std.specs.Prelude.{◌≢◌, List, ◌∷◌};
ghost use Rattle.batch_types.specs.Cells.{Cell as Seen};
ghost use Rattle.batch_types.specs.Shapes.{Shape, Shapes, shape_then};
ghost use Rattle.column_building.specs.declared.fault.CellsFault.{CellsFault as Fault};
ghost use Rattle.column_building.specs.declared.fault.CellsFault.TheVariants.{OutOfMemory};
ghost use Rattle.column_building.specs.Rows.{CanBeMade, IsTold, IsToldOfFirst};

/// A fault is told of the first column that can't be made. Of one that can be made none is told but that memory was
/// refused.
pub fn the_first_fault_is_told()
    ensures made { (s : Shape) (held : List Seen) (fault : Fault) → CanBeMade s held → IsTold s held fault
        → fault ≢ OutOfMemory → ⊥ }
    ensures first { (s : Shape) (shapes : Shapes) (held : List Seen) (columns : List (List Seen)) (fault : Fault)
        → (CanBeMade s held → ⊥) → IsToldOfFirst (shape_then s shapes) (held ∷ columns) fault
        → IsTold s held fault }
    ensures later { (s : Shape) (shapes : Shapes) (held : List Seen) (columns : List (List Seen)) (fault : Fault)
        → CanBeMade s held → fault ≢ OutOfMemory → IsToldOfFirst (shape_then s shapes) (held ∷ columns) fault
        → IsToldOfFirst shapes columns fault }
{}
