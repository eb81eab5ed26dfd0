//! The fields of calls, by what a call is named.
ghost use Rattle.std.specs.Prelude.{◌≡◌};
ghost use Rattle.hurd_vectors.specs.Fields.{field_name, fields, fields_of, sort_of};

use hurd_lists::Verb;

/// A field of a call's line.
#[derive(Clone, Copy, Debug, PartialEq, Eq)]
pub enum Field {
    Task,
    Call,
    Port,
    To,
    Uids,
    Gids,
    Dir,
    Path,
    Flags,
    Mode,
    Amount,
    Offset,
    Bytes,
    Whence,
    Other,
    Size,
    Owner,
    Group,
    Passive,
    Active,
    Goaway,
    Words,
    Control,
    Name,
    File,
    New,
}

/// What sort of value a field has.
#[derive(Clone, Copy, Debug, PartialEq, Eq)]
pub enum Sort {
    /// Digits, after `-` where the number is below zero.
    Number,
    /// A word as it is.
    Plain,
    /// Any bytes, after `=`.
    Bytes,
    /// Names joined by commas, or `-` for none.
    Names,
    /// Numbers joined by commas, or `-` for none.
    Numbers,
    /// All words before `box`, each of them bytes after `=`.
    Texts,
}

/// The fields of a call's arguments, in their order.
pub fn fields(verb: Verb) -> &'static [Field]
    ensures { result.now ≡ fields verb }
{
    match verb {
        Verb::PortReceive | Verb::FsysStartup | Verb::StartFailed => &[],
        Verb::PortSend => &[Field::Port, Field::To],
        Verb::AuthMakeauth => &[Field::Uids, Field::Gids],
        Verb::IoRead => &[Field::Port, Field::Amount, Field::Offset],
        Verb::IoWrite => &[Field::Port, Field::Bytes, Field::Offset],
        Verb::IoSeek => &[Field::Port, Field::Offset, Field::Whence],
        Verb::IoSetAllOpenmodes => &[Field::Port, Field::Flags],
        Verb::IoRestrictAuth => &[Field::Port, Field::Uids, Field::Gids],
        Verb::IoIdentity => &[Field::Port, Field::Other],
        Verb::FileChmod => &[Field::Port, Field::Mode],
        Verb::FileChown => &[Field::Port, Field::Owner, Field::Group],
        Verb::FileSetSize => &[Field::Port, Field::Size],
        Verb::FileSetTranslator => &[
            Field::Port,
            Field::Passive,
            Field::Active,
            Field::Goaway,
            Field::Words,
        ],
        Verb::FsysGetroot => &[Field::Control, Field::Dir, Field::Flags],
        Verb::FsysGoaway => &[Field::Control, Field::Flags],
        Verb::FsysGetOptions => &[Field::Control],
        Verb::FsysSetOptions => &[Field::Control, Field::Words],
        Verb::DirLookup => &[Field::Dir, Field::Path, Field::Flags, Field::Mode],
        Verb::DirMkdir => &[Field::Dir, Field::Name, Field::Mode],
        Verb::DirMkfile => &[Field::Dir, Field::Flags, Field::Mode],
        Verb::DirRmdir | Verb::DirUnlink => &[Field::Dir, Field::Name],
        Verb::DirLink => &[Field::Dir, Field::Name, Field::File],
        Verb::DirRename => &[Field::Dir, Field::Name, Field::To, Field::New],
        _ => &[Field::Port],
    }
}

/// The same of a call that is named.
pub fn fields_of(verb: Option<Verb>) -> &'static [Field]
    ensures { result.now ≡ fields_of verb }
{
    match verb {
        Some(verb) => fields(verb),
        None => &[],
    }
}

/// The name of a field.
pub fn field_name(field: Field) -> &'static str
    ensures { result.now ≡ field_name field }
{
    match field {
        Field::Task => "task",
        Field::Call => "call",
        Field::Port => "port",
        Field::To => "to",
        Field::Uids => "uids",
        Field::Gids => "gids",
        Field::Dir => "dir",
        Field::Path => "path",
        Field::Flags => "flags",
        Field::Mode => "mode",
        Field::Amount => "amount",
        Field::Offset => "offset",
        Field::Bytes => "bytes",
        Field::Whence => "whence",
        Field::Other => "other",
        Field::Size => "size",
        Field::Owner => "owner",
        Field::Group => "group",
        Field::Passive => "passive",
        Field::Active => "active",
        Field::Goaway => "goaway",
        Field::Words => "words",
        Field::Control => "control",
        Field::Name => "name",
        Field::File => "file",
        Field::New => "new",
    }
}

/// What sort of value a field has.
pub fn sort_of(field: Field) -> Sort
    ensures { result ≡ sort_of field }
{
    match field {
        Field::Call | Field::Mode | Field::Whence => Sort::Plain,
        Field::Path | Field::Bytes | Field::Name | Field::New => Sort::Bytes,
        Field::Flags | Field::Passive | Field::Active | Field::Goaway => Sort::Names,
        Field::Uids | Field::Gids => Sort::Numbers,
        Field::Words => Sort::Texts,
        _ => Sort::Number,
    }
}
