//! Long bitmaps against a plain program for what is packed and counted.

mod long;
mod plain;
mod putting;
