/// The number of live entries, and the SHA-256 digest of their member documents, joined in order of number.
#[derive(Clone, Copy, Debug)]
pub(crate) struct Live {
    pub(crate) count: u32,
    pub(crate) digest: [u8; 32],
}
