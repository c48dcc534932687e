//! Tests of the terminal's input and output, as tables: bytes read as keys and pasted texts, and
//! drawings as bytes.

mod drawing;
mod measuring;
mod reading;
mod sequences;
