//! The text of run sheets, line by line. A sheet line is four hexadecimal digits, 0 to 9 and capital A to F, and LF:
//! it says two numbers from 0 to 255. The first line of a sheet says the system's number and the word count, and each
//! further line says a move: its kind (00 Shift, 01 Left-Arc, 02 Right-Arc, 03 Reduce, 04 No-Arc) and its label, 00
//! for a move without an arc.
#![tactic(auto)]

pub mod lines;
pub mod playing;

pub use lines::{SheetLine, hex_value, read_heading, read_move};
