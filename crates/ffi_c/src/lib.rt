// What a program in C links: the functions for C under their names in C.
#![tactic(auto)]

mod boards_c;
mod words_c;
