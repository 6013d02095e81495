/// A lane of a user, by the numbers of both. The lowest numbers are the user's sending lanes; after them comes a block
/// of lanes for each remote entity that delivers to the user, in the order of the configuration.
#[derive(Clone, Copy, Debug, PartialEq, Eq)]
pub struct Place {
    pub user: usize,
    pub lane: usize,
}
