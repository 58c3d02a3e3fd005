//! Definitions and lemmas of a manager that begins anew: what it keeps until each switch has told all that the
//! manager has to know, what is due, and that each hearing keeps what each treated word keeps. It has no code.
#![tactic(auto)]
