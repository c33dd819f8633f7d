//! Tests of the device's parts after its journal: the table of buffers.

mod buffers;
