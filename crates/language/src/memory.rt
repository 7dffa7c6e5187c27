// What a call answers that takes memory, which it may not find.
use std::alloc::AllocError;

pub type Made<T> = Result<T, AllocError>;
