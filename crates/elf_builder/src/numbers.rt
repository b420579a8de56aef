//! Numbers, lowest byte first, and zeros behind bytes.
use crate::BuilderFault;

// A file has fewer bytes than this.
pub const FILE_END: u64 = 1 << 32;

pub fn push_u16(bytes: &mut Vec<u8>, number: u16) -> Result<(), BuilderFault> {
    Ok(bytes.extend_from_slice(&number.to_le_bytes())?)
}

pub fn push_u32(bytes: &mut Vec<u8>, number: u32) -> Result<(), BuilderFault> {
    Ok(bytes.extend_from_slice(&number.to_le_bytes())?)
}

pub fn push_u64(bytes: &mut Vec<u8>, number: u64) -> Result<(), BuilderFault> {
    Ok(bytes.extend_from_slice(&number.to_le_bytes())?)
}

// So many zeros behind the bytes.
pub fn pad(bytes: &mut Vec<u8>, zeros: u64) -> Result<(), BuilderFault> {
    if zeros >= FILE_END {
        return Err(BuilderFault::TooLong);
    }
    for _ in 0..zeros {
        bytes.push(0)?;
    }
    Ok(())
}

// A count, where the field of a header can tell it.
pub fn count_of(count: usize) -> Result<u16, BuilderFault> {
    u16::try_from(count).map_err(|_| BuilderFault::TooLong)
}
