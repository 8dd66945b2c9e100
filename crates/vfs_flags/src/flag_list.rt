//! The list of a flag set's constants, each beside its name.

/// The flags of the set, in order, as `Flags::flags` gives them.
macro_rules! flag_list {
    ($set:ident: $($name:ident),* $(,)?) => {
        &[$(Flag { name: stringify!($name), value: $set::$name }),*]
    };
}

pub(crate) use flag_list;
