//! What calls are named.
ghost use Rattle.std.specs.Prelude.{◌≡◌};
ghost use Rattle.hurd_lists.specs.Verbs.{dir_verb, file_verb, fsys_verb, io_verb, port_verb, share_verb, translator_verb, verb_of};

/// What a call is named.
#[derive(Clone, Copy, Debug, PartialEq, Eq)]
pub enum Verb {
    PortDeallocate,
    PortSend,
    PortReceive,
    AuthMakeauth,
    IoRead,
    IoWrite,
    IoSeek,
    IoStat,
    IoReadable,
    IoGetOpenmodes,
    IoSetAllOpenmodes,
    IoDuplicate,
    IoReauthenticate,
    IoRestrictAuth,
    IoIdentity,
    FileChmod,
    FileChown,
    FileSetSize,
    FileCheckAccess,
    FileSetTranslator,
    FileGetTranslator,
    FileGetTranslatorCntl,
    FileGetcontrol,
    FsysStartup,
    StartFailed,
    FsysGetroot,
    FsysGoaway,
    FsysGetOptions,
    FsysSetOptions,
    DirLookup,
    DirReaddir,
    DirMkdir,
    DirMkfile,
    DirRmdir,
    DirUnlink,
    DirLink,
    DirRename,
}

/// A call on a port as such, or on ids.
fn port_verb(name: &str) -> Option<Verb>
    ensures { result ≡ port_verb name.now }
{
    match name {
        "port_deallocate" => Some(Verb::PortDeallocate),
        "port_send" => Some(Verb::PortSend),
        "port_receive" => Some(Verb::PortReceive),
        "auth_makeauth" => Some(Verb::AuthMakeauth),
        _ => None,
    }
}

/// A call on what a port has open.
fn io_verb(name: &str) -> Option<Verb>
    ensures { result ≡ io_verb name.now }
{
    match name {
        "io_read" => Some(Verb::IoRead),
        "io_write" => Some(Verb::IoWrite),
        "io_seek" => Some(Verb::IoSeek),
        "io_stat" => Some(Verb::IoStat),
        "io_readable" => Some(Verb::IoReadable),
        "io_get_openmodes" => Some(Verb::IoGetOpenmodes),
        "io_set_all_openmodes" => Some(Verb::IoSetAllOpenmodes),
        _ => None,
    }
}

/// A call that makes a port like another, or compares two.
fn share_verb(name: &str) -> Option<Verb>
    ensures { result ≡ share_verb name.now }
{
    match name {
        "io_duplicate" => Some(Verb::IoDuplicate),
        "io_reauthenticate" => Some(Verb::IoReauthenticate),
        "io_restrict_auth" => Some(Verb::IoRestrictAuth),
        "io_identity" => Some(Verb::IoIdentity),
        _ => None,
    }
}

/// A call on the attributes of a node.
fn file_verb(name: &str) -> Option<Verb>
    ensures { result ≡ file_verb name.now }
{
    match name {
        "file_chmod" => Some(Verb::FileChmod),
        "file_chown" => Some(Verb::FileChown),
        "file_set_size" => Some(Verb::FileSetSize),
        "file_check_access" => Some(Verb::FileCheckAccess),
        _ => None,
    }
}

/// A call on the translators of a node.
fn translator_verb(name: &str) -> Option<Verb>
    ensures { result ≡ translator_verb name.now }
{
    match name {
        "file_set_translator" => Some(Verb::FileSetTranslator),
        "file_get_translator" => Some(Verb::FileGetTranslator),
        "file_get_translator_cntl" => Some(Verb::FileGetTranslatorCntl),
        "file_getcontrol" => Some(Verb::FileGetcontrol),
        _ => None,
    }
}

/// A call on a server, or on the start of one.
fn fsys_verb(name: &str) -> Option<Verb>
    ensures { result ≡ fsys_verb name.now }
{
    match name {
        "fsys_startup" => Some(Verb::FsysStartup),
        "start_failed" => Some(Verb::StartFailed),
        "fsys_getroot" => Some(Verb::FsysGetroot),
        "fsys_goaway" => Some(Verb::FsysGoaway),
        "fsys_get_options" => Some(Verb::FsysGetOptions),
        "fsys_set_options" => Some(Verb::FsysSetOptions),
        _ => None,
    }
}

/// A call on entries of a directory.
fn dir_verb(name: &str) -> Option<Verb>
    ensures { result ≡ dir_verb name.now }
{
    match name {
        "dir_lookup" => Some(Verb::DirLookup),
        "dir_readdir" => Some(Verb::DirReaddir),
        "dir_mkdir" => Some(Verb::DirMkdir),
        "dir_mkfile" => Some(Verb::DirMkfile),
        "dir_rmdir" => Some(Verb::DirRmdir),
        "dir_unlink" => Some(Verb::DirUnlink),
        "dir_link" => Some(Verb::DirLink),
        "dir_rename" => Some(Verb::DirRename),
        _ => None,
    }
}

/// The call of a name.
pub fn verb_of(name: &str) -> Option<Verb>
    ensures { result ≡ verb_of name.now }
{
    port_verb(name)
        .or(io_verb(name))
        .or(share_verb(name))
        .or(file_verb(name))
        .or(translator_verb(name))
        .or(fsys_verb(name))
        .or(dir_verb(name))
}
