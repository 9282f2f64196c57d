// What is made of a source.

use bytecode::Verified;
use items::Items;
use texts::Text;

/// The code of a source, how large its program is, and the names of its files.
#[derive(Debug, Drop)]
pub struct Compiled {
    /// The code.
    pub code: Verified,
    /// The cells of the program, those of the event left out: at most 1,000,000.
    pub cells: u64,
    /// The weight of the program: at most 1,000,000.
    pub weight: u64,
    /// The names of the files of the program, in program order.
    pub files: Items<Text>,
}
