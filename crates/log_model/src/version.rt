/// The two versions of a log's text: the lines of its entries alone, and between a first line that says the version and a
/// last one that says how many they are.
#[derive(Clone, Copy, Debug, PartialEq, Eq)]
pub enum Version {
    One,
    Two,
}
