// One of two iterators, by the kind of the list that they go over.
#[derive(Drop)]
pub(crate) enum Either<A, B> {
    First(A),
    Second(B),
}
