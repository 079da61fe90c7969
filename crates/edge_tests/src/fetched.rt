use io_edge::{EdgeErr, Fetched};

// Whether these bytes were fetched, and no others.
pub(crate) fn gives(fetched: Result<Fetched, EdgeErr>, want: &[u8]) -> bool {
    match fetched {
        Ok(Fetched::Bytes(bytes)) => bytes.as_slice() == want,
        _ => false,
    }
}

// Whether the file was too long, with so many bytes.
pub(crate) fn is_too_long(fetched: Result<Fetched, EdgeErr>, want: u64) -> bool {
    match fetched {
        Ok(Fetched::TooLong(count)) => count == want,
        _ => false,
    }
}

// Whether there was no file.
pub(crate) fn is_missing(fetched: Result<Fetched, EdgeErr>) -> bool {
    match fetched {
        Ok(Fetched::Missing) => true,
        _ => false,
    }
}

// Whether the outside failed.
pub(crate) fn failed(fetched: Result<Fetched, EdgeErr>) -> bool {
    match fetched {
        Err(EdgeErr::Failed) => true,
        _ => false,
    }
}
