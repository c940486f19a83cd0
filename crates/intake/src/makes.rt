/// Makes futures `J` of descriptors `D`.
pub trait Makes<D, J> {
    /// The future that this descriptor asks for. A worker calls it in a poll, with a permit and no lock held.
    fn make(&mut self, asked: D) -> J;
}
