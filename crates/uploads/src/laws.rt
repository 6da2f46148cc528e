//! Laws of why no upload is made.

ghost use Rattle.std.specs.Prelude.{◌≡◌, ℕ, List};
ghost use Rattle.header_types.specs.Fields.{SchemaTree};
ghost use Rattle.batch_columns.specs.declared.batch.Batch.{Batch};
ghost use Rattle.uploads.specs.Making.{AreMade, AreRefused};
ghost use Rattle.uploads.specs.declared.upload_fault.UploadFault.{UploadFault};
ghost use Rattle.uploads.specs.declared.upload_fault.UploadFault.TheVariants.{OutOfMemory};

/// Of the same parts one fault is told at most: each stands where no other does; and where an upload is made of them, none
/// is told but that memory was refused.
pub fn faults_stand_apart()
    ensures one { (table id : List ℕ) (schema : SchemaTree) (batches : List Batch) (x y : UploadFault)
        → AreRefused table id schema batches x → AreRefused table id schema batches y → x ≡ y }
    ensures made { (table id : List ℕ) (schema : SchemaTree) (batches : List Batch) (x : UploadFault)
        → AreMade table id schema batches → AreRefused table id schema batches x → x ≡ OutOfMemory }
{}
