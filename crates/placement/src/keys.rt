// How many keys there are: slot s of function f has the key f * 6 + s.
// Who indexes by a key requires that it is below this; a type of keys would be taken apart at each index.
use address::limits::{BAR_SLOTS, FUNCTION_LIMIT};

pub const KEY_COUNT: usize = FUNCTION_LIMIT * BAR_SLOTS;
