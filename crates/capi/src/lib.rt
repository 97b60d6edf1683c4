// The C interface: the public calls of the layers below as C functions, declared in include/balthwyr.h. Numbers go in as themselves, a slice as a pointer
// and a length, a number that is to be written as a pointer. The result is the number of the refusal, 0 for none; the values go to lent numbers, which are
// zeros on a refusal. Kinds, and what is there or not, are numbers here because C has no other. docs/C-INTERFACE.md says how a program is linked with it.
//
// Each function takes its arguments apart, makes one call of a layer below, and stores the answer. Its contract is that call's definition, told in
// numbers (`Report` of lists/specs); what is of this interface alone is defined in specs/.
#![tactic(auto)]

pub mod angle;
pub mod build;
pub mod byte_class;
mod lent;
pub mod masks;
pub mod plan;
pub mod priorities;
pub mod read;
pub mod scan;
pub mod text;
mod told;
pub mod verdict;
