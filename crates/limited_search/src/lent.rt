// What a call is lent beside (H, c).

// What is searched and from where: the present choice, how many wagons at most may stand in another store than there, and how wide the search is.
#[derive(Clone, Copy)]
pub struct Request<'a> {
    pub present: &'a [u8],
    pub most: usize,
    pub width: usize,
}
