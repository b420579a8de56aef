//! Sources on one line.
use anyhow::{Result, bail};
use std::alloc::Global;

// The bytes that begin at a backslash: the one that they stand for, and what stands behind them.
fn escape(rest: &[u8]) -> Result<(u8, &[u8])> {
    let Some(letter) = rest.get(1).copied() else {
        bail!("a backslash ends a source");
    };
    let behind = rest.get(2..).unwrap_or(&[]);
    match letter {
        b'n' => Ok((b'\n', behind)),
        b't' => Ok((b'\t', behind)),
        b'r' => Ok((b'\r', behind)),
        b'\\' => Ok((b'\\', behind)),
        b'x' => {
            let (Some(digits), Some(more)) = (behind.get(..2), behind.get(2..)) else {
                bail!("a byte has two digits");
            };
            let mut byte = [0; 1];
            hex::decode_to_slice(digits, &mut byte)?;
            Ok((byte[0], more))
        }
        _ => bail!("no escape has this letter"),
    }
}

/// The bytes that a text stands for.
pub fn unescaped(alloc: Global, text: &[u8]) -> Result<Vec<u8>> {
    let mut out = Vec::new(alloc);
    let mut rest = text;
    for _ in 0..text.len() {
        let Some(first) = rest.first().copied() else {
            break;
        };
        if first == b'\\' {
            let (byte, behind) = escape(rest)?;
            out.push(byte)?;
            rest = behind;
        } else {
            out.push(first)?;
            rest = rest.get(1..).unwrap_or(&[]);
        }
    }
    Ok(out)
}
