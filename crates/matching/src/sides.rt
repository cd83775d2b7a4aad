// A sheet with what is found of its nodes before they are matched: where the tree of each ends, and the print of its name.
ghost use Rattle.matching.specs.Steps.{Surveyed};
ghost use Rattle.matching.specs.Facts.{surveyed_prop};

// The sheet, where the tree of each node ends, and the print of each node's name. Ends and prints stay two arrays: ends are written from the
// last node on and prints from the first on, so that an array of both would be written twice, and each loop would state what it leaves of the other.
#[derive(Drop)]
pub(crate) struct Side<'a> {
    pub(crate) sheet: &'a [u8],
    pub(crate) ends: &'a [u16],
    pub(crate) prints: &'a [u32],
    ghost surveyed: { Surveyed sheet.now ends.now prints.now } by { surveyed_prop sheet.now ends.now prints.now },
}
