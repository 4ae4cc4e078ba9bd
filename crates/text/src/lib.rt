// Texts: see specs/ for their bytes, fields, lines and decimal numbers. Here are the readers and the writers of fields.

#![tactic(auto)]

pub mod number; // number.rt: numbers as fields
pub mod read; // read.rt: fields out of a text
pub mod write; // write.rt: bytes into an array
