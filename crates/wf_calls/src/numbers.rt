//! The numbers of the calls of programs, in a7. Arguments are in a0 to a2 and the answer in a0; a
//! call that is refused answers its refusal's number, negated ([`number_of`](crate::number_of)). No
//! call has a number above 8.

/// The hart stops with the code in a0, and there is no answer.
pub const EXIT: u64 = 0;

/// The low 8 bits of a0 are put out. The answer is 0.
pub const PUT_BYTE: u64 = 1;

/// Pages of zeros are mapped: from the address in a0, so many as a1 says, that may be read where a2
/// is 1, and read and written where it is 3. The answer is 0.
pub const MAP: u64 = 2;

/// Pages are unmapped: from the address in a0, so many as a1 says. The answer is 0.
pub const UNMAP: u64 = 3;

/// The answer is the hart's generation.
pub const OWN_GENERATION: u64 = 4;

/// The hart moves to the generation in a0. The answer is that number.
pub const MIGRATE: u64 = 5;

/// The hart moves to the newest generation. The answer is its number.
pub const QUIESCE: u64 = 6;

/// The generation in a0 is deleted. The answer is 0.
pub const DELETE: u64 = 7;

/// The hart's generation is cloned. The answer is the new one's number.
pub const CREATE: u64 = 8;
