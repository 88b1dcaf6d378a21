// What the terminal shows and takes: the picture of a label, rows of modules, lines of text, and the words of the command line.
// Nothing here reads or writes: text is put together in lent memory.
#![tactic(auto)]

pub mod options; // options.rt: the options of the command line
pub mod picture; // picture.rt: the picture in the terminal
pub mod scan; // scan.rt: modules from what shows them
pub mod text; // text.rt: text that is put together
pub mod words; // words.rt: what words mean
