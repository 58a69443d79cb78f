use tests_rows::Unread;

/// Puts a number of two bytes behind others.
pub fn put_u16(n: usize, bytes: &mut Vec<u8>) -> Result<(), Unread> {
    match u16::try_from(n) {
        Ok(n) => Ok(bytes.extend_from_slice(&n.to_be_bytes())?),
        Err(_) => Err(Unread::Line),
    }
}

/// Puts the length of a run of bytes in four bytes, and the run itself, behind others.
pub fn put_run(run: &[u8], bytes: &mut Vec<u8>) -> Result<(), Unread> {
    match u32::try_from(run.len()) {
        Ok(n) => bytes.extend_from_slice(&n.to_be_bytes())?,
        Err(_) => return Err(Unread::Line),
    }
    Ok(bytes.extend_from_slice(run)?)
}
