// The shell's scripts: the words of a line, numbers, keywords and the command that a line is. Every function takes any bytes and has no
// `requires`; each contract is an equation with a definition of specs/ (Runs, Numbers, Table, Commands, Orders). A number is read by the machine of
// the log's lines; that a word is the number v exactly where it is v's decimal text, and a keyword exactly where it is the keyword's text, is
// proved in proofs/Numbers.antt and proofs/Keywords.antt.
#![tactic(auto)]

pub mod command;
mod number;
pub mod order;
pub mod run;
mod table;
