// 64-bit register words made of bit fields, as document 001 prints them.
// No function here has a precondition: each gives what its contract says for every argument.
#![tactic(auto)]

pub mod field; // a field of any width at any offset, taken and put, and a single bit
pub mod intercept_control; // the intercept control word, packed and unpacked
pub mod register_word; // what each register has: pack and unpack, as its layout says
pub mod registers; // the other registers of document 001, packed and unpacked, and the fields of all by number
