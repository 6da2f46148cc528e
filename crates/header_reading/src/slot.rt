//! The fields of the tables that are read, by their numbers (Apache Arrow, "Schema.fbs" and "Message.fbs").

/// Of `KeyValue`.
pub(crate) const ENTRY_KEY: usize = 0;

/// Of `KeyValue`.
pub(crate) const ENTRY_VALUE: usize = 1;

/// Of `Field`.
pub(crate) const FIELD_NAME: usize = 0;

/// Of `Field`.
pub(crate) const FIELD_NULLABLE: usize = 1;

/// Of `Field`: the number of its type in the union `Type`.
pub(crate) const FIELD_TYPE_ID: usize = 2;

/// Of `Field`: the table of its type.
pub(crate) const FIELD_TYPE: usize = 3;

/// Of `Field`.
pub(crate) const FIELD_DICTIONARY: usize = 4;

/// Of `Field`.
pub(crate) const FIELD_CHILDREN: usize = 5;

/// Of `Field`: `custom_metadata`.
pub(crate) const FIELD_METADATA: usize = 6;

/// Of `Timestamp`.
pub(crate) const TIMESTAMP_TIMEZONE: usize = 1;

/// Of `Schema`.
pub(crate) const SCHEMA_ENDIANNESS: usize = 0;

/// Of `Schema`.
pub(crate) const SCHEMA_FIELDS: usize = 1;

/// Of `Schema`: `custom_metadata`.
pub(crate) const SCHEMA_METADATA: usize = 2;

/// Of `RecordBatch`.
pub(crate) const BATCH_LENGTH: usize = 0;

/// Of `RecordBatch`.
pub(crate) const BATCH_NODES: usize = 1;

/// Of `RecordBatch`.
pub(crate) const BATCH_BUFFERS: usize = 2;

/// Of `RecordBatch`.
pub(crate) const BATCH_COMPRESSION: usize = 3;

/// Of `Message`.
pub(crate) const MESSAGE_VERSION: usize = 0;

/// Of `Message`: the number of its header's type in the union `MessageHeader`.
pub(crate) const MESSAGE_HEADER_TYPE: usize = 1;

/// Of `Message`: the header's table.
pub(crate) const MESSAGE_HEADER: usize = 2;

/// Of `Message`.
pub(crate) const MESSAGE_BODY_LENGTH: usize = 3;
