// Byte spellings of fields: numbers high byte first, one spelling for each value, and reading that names the first bad byte.
mod answers;
mod ballots;
mod batches;
mod field;
mod ids;
mod notes;
mod numbers;
mod parts;
mod priors;
mod records;
pub mod rows;
mod several;
mod stop;

pub use field::Field;
pub use ids::token_bytes;
pub use parts::write;
pub use several::{put_three, put_two, read_tag, read_three, read_two};
pub use stop::{FieldFault, Stop};
