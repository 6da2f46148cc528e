//! Values whose uploads are ready to be taken without memory.

ghost use Rattle.std.specs.Prelude.{◌≡◌, length, IfOk, OnOk};
ghost use Rattle.table_versions.specs.Preparing.{IsUploadIn, PreparesBytes, PushesBytes, PushesValue};

use crate::prepared::Prepared;
use crate::preparing::prepare;
use ballots::{OutOfMemory, Value};
use bytes::Bytes;
use std::alloc::{AllocError, Global};
use std::collections::VecDeque;
use std::marker::Model;
use table_types::laws::texts_hold_one_list_of_uploads;
use uploads::{DecodeFault, HeldUploads, Upload};

/// The next values of the list, with all that [`crate::Tables::apply`] needs of them.
#[derive(Debug, Drop)]
pub struct Ready {
    pub(crate) uploads: VecDeque<Prepared>,
    pub(crate) count: u64,
}

impl Model for Ready {
    ghost use Rattle.table_versions.specs.State.{ReadyState};

    ghost Value = { ReadyState };

    ghost use Rattle.header_types.specs.contracts.schema.Field as field;
    ghost use Rattle.std.specs.Coded.{codes};

    ghost coded = { Prim.hlevel (codes, field.the_row.coded) };

    ghost use Rattle.std.specs.Prelude.{List};
    ghost use Rattle.ballots.specs.declared.value.Value.{Value as Agreed};
    ghost use Rattle.table_versions.specs.State.{IsReadyFor};

    ghost view = { λ r. record { uploads = r.uploads.items; count = r.count } };

    ghost invariant = { λ r. (values : List Agreed)
        × IsReadyFor (record { uploads = r.uploads.items; count = r.count }) values };
}

impl Ready {
    ghost use Rattle.table_versions.specs.State.{IsReadyFor};

    /// These values, made ready, of which some may be uploads that are held.
    pub(crate) fn of<H: HeldUploads>(
        alloc: Global,
        values: &[Value],
        held: &H,
    ) -> Result<Ready, OutOfMemory>
        ensures { IfOk result (λ ready. IsReadyFor ready values.now) }
    {
        texts_hold_one_list_of_uploads();
        let mut uploads = VecDeque::new(alloc);
        for value in values {
            push_value(alloc, &mut uploads, value, held)?;
        }
        Ok(Ready {
            uploads,
            count: values.len() as u64,
        })
    }

    /// How many uploads there are.
    pub(crate) fn len(&self) -> usize
        ensures { result ≡ length self.now.uploads }
    {
        self.uploads.len()
    }
}

/// The upload that these bytes are, or `None` where they are none. Those of one that is held are not looked at again.
fn upload_of<H: HeldUploads>(
    alloc: Global,
    bytes: &Bytes,
    held: &H,
) -> Result<Option<Upload>, OutOfMemory>
    ensures { IfOk result (IsUploadIn bytes.now) }
{
    if let Some(upload) = held.find(bytes.as_slice()) {
        let _text = upload.as_slice();
        return Ok(Some(upload.clone()?));
    }
    match Upload::decode(alloc, bytes.clone()?) {
        Ok(upload) => Ok(Some(upload)),
        Err(DecodeFault::NotAnUpload) => Ok(None),
        Err(DecodeFault::OutOfMemory) => Err(AllocError),
    }
}

/// The upload that these bytes are, made ready, or `None` where they are none.
fn prepared_of<H: HeldUploads>(
    alloc: Global,
    bytes: &Bytes,
    held: &H,
) -> Result<Option<Prepared>, OutOfMemory>
    ensures { IfOk result (PreparesBytes bytes.now) }
{
    match upload_of(alloc, bytes, held)? {
        Some(upload) => Ok(Some(prepare(alloc, upload)?)),
        None => Ok(None),
    }
}

/// Puts the upload that these bytes are behind the others, and nothing where they are none.
fn push_bytes<H: HeldUploads>(
    alloc: Global,
    uploads: &mut VecDeque<Prepared>,
    bytes: &Bytes,
    held: &H,
) -> Result<(), OutOfMemory>
    ensures { OnOk result (PushesBytes uploads.old.items uploads.new.items bytes.now) }
{
    match prepared_of(alloc, bytes, held)? {
        Some(prepared) => {
            uploads.push_back(prepared)?;
            Ok(())
        }
        None => Ok(()),
    }
}

/// Puts what a value adds behind the others.
fn push_value<H: HeldUploads>(
    alloc: Global,
    uploads: &mut VecDeque<Prepared>,
    value: &Value,
    held: &H,
) -> Result<(), OutOfMemory>
    ensures { OnOk result (PushesValue uploads.old.items uploads.new.items value.now) }
{
    texts_hold_one_list_of_uploads();
    match value {
        Value::Noop => Ok(()),
        Value::Upload(bytes) => push_bytes(alloc, uploads, bytes.as_bytes(), held),
    }
}
