//! The messages of an answer, one after the other.

ghost use Rattle.std.specs.Prelude.{◌≡◌, ◌++◌, ◌∷◌, [], ℕ, List, IfOk};
ghost use Rattle.header_types.specs.Profile.{InProfile};
ghost use Rattle.header_types.specs.Views.{schema_of};
ghost use Rattle.table_types.specs.Valid.{FitsFrame};
ghost use Rattle.downloads.specs.declared.downloading.Downloading.TheVariants.{Reached};
ghost use Rattle.downloads.specs.Taken.{IsReady, HasTaken, TellsDownload};

use crate::adding::add;
use crate::download::Download;
use crate::ids::ids_differ;
use crate::laws::messages_are_one;
use crate::{schema_in, upload_message_in};
use std::alloc::{AllocError, Global};

/// What the messages are that came so far.
#[derive(Debug, Drop)]
pub enum Downloading {
    /// None came.
    Begun,
    /// They group into these uploads, of which no two that stand side by side have one id. Whether an id comes again
    /// further on is not yet asked.
    Reached(Download),
    /// They are those of no download, whatever follows them.
    Spoiled,
}

impl Downloading {
    /// With one message more, of no more than 4,194,304 bytes. A message of an upload says its id and one of its batches, or
    /// its id alone: the batches of one id that follow one another are of one upload, and an id alone is of an upload
    /// without batches.
    ///
    /// [`AllocError`]: memory was refused, and what came is let go.
    pub fn take(self, alloc: Global, message: &[u8]) -> Result<Downloading, AllocError>
        // The schema is one that uploads can be read of.
        requires ready { IsReady self }
        ensures ready { IfOk result IsReady }
        ensures taken { (messages : List (List ℕ)) → HasTaken self messages → FitsFrame message.now
            → IfOk result (λ next. HasTaken next (messages ++ message.now ∷ [])) }
    {
        match self {
            Downloading::Begun => begin(alloc, message),
            Downloading::Reached(download) => go_on(alloc, download, message),
            Downloading::Spoiled => Ok(Downloading::Spoiled),
        }
    }

    /// The download whose messages came, and no others; `None` where they are those of none, as where an id comes again
    /// behind another upload.
    ///
    /// [`AllocError`]: memory was refused, and what came is let go.
    pub fn finish(self, alloc: Global) -> Result<Option<Download>, AllocError>
        ensures { (messages : List (List ℕ)) → HasTaken self messages → IfOk result (TellsDownload messages) }
    {
        match self {
            Downloading::Reached(download) => without_repeats(alloc, download),
            Downloading::Begun | Downloading::Spoiled => Ok(None),
        }
    }
}

/// With the first message, which says the schema.
fn begin(alloc: Global, message: &[u8]) -> Result<Downloading, AllocError>
    ensures ready { IfOk result IsReady }
    ensures taken { FitsFrame message.now → IfOk result (λ next. HasTaken next (message.now ∷ [])) }
{
    match schema_in(alloc, message)? {
        Some(schema) => Ok(Downloading::Reached(Download {
            schema,
            uploads: Vec::new(alloc),
        })),
        None => Ok(Downloading::Spoiled),
    }
}

/// With a message behind those of a download.
fn go_on(alloc: Global, download: Download, message: &[u8]) -> Result<Downloading, AllocError>
    requires profile { InProfile (schema_of download.schema) }
    ensures ready { IfOk result IsReady }
    ensures taken { (messages : List (List ℕ)) → HasTaken (Reached download) messages → FitsFrame message.now
        → IfOk result (λ next. HasTaken next (messages ++ message.now ∷ [])) }
{
    messages_are_one();
    let Some(said) = upload_message_in(alloc, &download.schema, message)? else {
        return Ok(Downloading::Spoiled);
    };
    let Download { schema, uploads } = download;
    match add(alloc, uploads, said)? {
        Some(uploads) => Ok(Downloading::Reached(Download { schema, uploads })),
        None => Ok(Downloading::Spoiled),
    }
}

/// What the messages of these uploads are at their end: a download, if no two of the uploads have one id.
fn without_repeats(alloc: Global, download: Download) -> Result<Option<Download>, AllocError>
    ensures { (messages : List (List ℕ)) → HasTaken (Reached download) messages → IfOk result (TellsDownload messages) }
{
    messages_are_one();
    if ids_differ(alloc, download.uploads.as_slice())? {
        Ok(Some(download))
    } else {
        Ok(None)
    }
}
