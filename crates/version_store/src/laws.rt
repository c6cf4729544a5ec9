// What a hall is as the value of a turn book.
// A law is the contract of a function that does nothing: a call makes it known where it stands.
ghost use Rattle.version_store.specs.Turns.{KeepsOrigin, FindsRoom, KeepsRows};

/// A call leaves a hall with the origin that it had: one entry more and room for one less add up to the calls that it was opened for.
pub fn calls_keep_the_origin<R>()
    ensures { KeepsOrigin R }
{}

/// In a turn there is room for its call, where the turns are no more than the calls that the hall was opened for.
pub fn turns_find_room<R>()
    ensures { FindsRoom R }
{}

/// A row that a hall has at a number stands at that number in each later hall of the same base.
pub fn rows_are_known_again<R>()
    ensures { KeepsRows R }
{}
