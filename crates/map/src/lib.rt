// The map of the pool: which slot holds which block. It stands alone: nothing in it knows of a command.
// The pool is lent by its parts, owners, marks and medium, as C lends them. One struct of the three slices proves too, but is no plainer: it has a
// lifetime for each, and in every method and loop a clause that each is still the slice that was lent.
#![tactic(auto)]

mod index;
pub mod range;
pub mod read;
pub mod slots;
pub mod unmap;
pub mod write;
