/// A `match` whose arms are the rows of a table, each on a line.
macro_rules! table {
    ($of:expr; $($row:pat => $value:expr;)*) => {
        match $of {
            $($row => $value,)*
        }
    };
}

pub(crate) use table;
