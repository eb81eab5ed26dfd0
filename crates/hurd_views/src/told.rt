//! What is seen under a name, as the world has it now.
ghost use Rattle.std.specs.Prelude.{◌≡◌, ◌++◌, [], None, IfOk, OnOk};
ghost use Rattle.std.specs.Option.{option_map};
ghost use Rattle.std.specs.FinMap as fin;
ghost use Rattle.hurd_core.specs.Core.{world_of};
ghost use Rattle.hurd_trans_iface.specs.Answers.{entry_of};
ghost use Rattle.hurd_trans_iface.specs.Meaning.{options_of};
ghost use Rattle.hurd_trans_iface.specs.Nodes.{body_of as body_in, content_of};
ghost use Rattle.hurd_nodes.specs.Shown.{ServerInfo, shown};
ghost use Rattle.hurd_machine.specs.World.{words_at};
ghost use Rattle.hurd_views.specs.Views.{body_row, entry_before, first_word, node_row, row_of, rows_in, server_row, text_row, with_entries};

use crate::rows::{
    BodyRow, EntryRow, EntryRows, NodeNames, NodeRow, OpenRow, Row, ServerRow, TextRow,
};
use hurd_core::Core;
use hurd_creds::{Attrs, Bytes, Errno, Name, NodeName, ServerName};
use hurd_nodes::Nodes;
use hurd_ports::Ends;
use hurd_sight::{SeenPart, Sight};
use hurd_trans_iface::{Names, Server, Words};
use std::alloc::{AllocError, Global};

/// All that is seen under a name.
pub(crate) fn row_of<S: Server>(
    alloc: Global,
    core: &Core<S>,
    sight: &Sight,
    name: Name,
) -> Result<Row, AllocError>
    ensures { IfOk result (λ row. row ≡ row_of (world_of S.meaning core.now) sight.now name) }
{
    Ok(Row {
        attributes: attributes_of(alloc, core, sight, name)?,
        empty: empty_of(core, sight, name),
        body: body_of(alloc, core, sight, name)?,
        ends: ends_of(core, sight, name),
        opened: opened_of(core, sight, name),
        server: server_of(alloc, core, sight, name)?,
        text: text_of(alloc, core, sight, name)?,
        users: users_of(core, sight, name),
        total: total_of(core, sight, name),
    })
}

/// What is seen of a node beside what is in it.
fn attributes_of<S: Server>(
    alloc: Global,
    core: &Core<S>,
    sight: &Sight,
    name: Name,
) -> Result<Option<NodeRow>, AllocError>
    ensures { IfOk result (λ row. row ≡ (row_of (world_of S.meaning core.now) sight.now name).attributes) }
{
    if !sight.sees(core.nodes(), SeenPart::Attributes(name)) {
        return Ok(None);
    }
    Ok(Some(node_row(alloc, core, name)?))
}

/// A node beside what is in it.
fn node_row<S: Server>(alloc: Global, core: &Core<S>, node: NodeName) -> Result<NodeRow, AllocError>
    ensures { IfOk result (λ row. row ≡ node_row (world_of S.meaning core.now) node) }
{
    let nodes = core.nodes();
    Ok(NodeRow {
        attrs: bare(nodes.attrs(node)),
        words: words_of(alloc, core, node)?,
        home: nodes.home(node),
        active: nodes.active(node),
    })
}

/// The words of the passive translator of a node; none where it is gone, or has none.
fn words_of<S: Server>(alloc: Global, core: &Core<S>, node: NodeName) -> Result<Words, AllocError>
    ensures { IfOk result (λ words. words ≡ words_at (world_of S.meaning core.now) node) }
{
    match core.nodes().passive(node) {
        Some(words) => words.copied(alloc),
        None => Ok(Words::none(alloc)),
    }
}

/// Attributes, as if a directory had entries.
fn bare(attrs: Option<Attrs>) -> Option<Attrs>
    ensures { result ≡ option_map with_entries attrs }
{
    match attrs {
        Some(attrs) => Some(Attrs {
            empty: false,
            ..attrs
        }),
        None => None,
    }
}

/// Whether it is seen that a directory has no entries.
fn empty_of<S: Server>(core: &Core<S>, sight: &Sight, name: Name) -> Option<Option<bool>>
    ensures { result ≡ (row_of (world_of S.meaning core.now) sight.now name).empty }
{
    if !sight.sees(core.nodes(), SeenPart::Empty(name)) {
        return None;
    }
    Some(is_empty(core.nodes().attrs(name)))
}

/// Whether a node is an empty directory, if it is there.
fn is_empty(attrs: Option<Attrs>) -> Option<bool>
    ensures { result ≡ option_map (λ (a : Attrs). a.empty) attrs }
{
    match attrs {
        Some(attrs) => Some(attrs.empty),
        None => None,
    }
}

/// What is seen of what is in a node.
fn body_of<S: Server>(
    alloc: Global,
    core: &Core<S>,
    sight: &Sight,
    name: Name,
) -> Result<Option<Option<BodyRow>>, AllocError>
    ensures { IfOk result (λ row. row ≡ (row_of (world_of S.meaning core.now) sight.now name).body) }
{
    if !sight.sees(core.nodes(), SeenPart::Body(name)) {
        return Ok(None);
    }
    Ok(Some(body_row(alloc, core.nodes(), name)?))
}

/// What is in a node, if it is there.
fn body_row<S: Server>(
    alloc: Global,
    nodes: &Nodes<S>,
    node: NodeName,
) -> Result<Option<BodyRow>, AllocError>
    ensures { IfOk result (λ row. row ≡ option_map body_row (body_in (shown S.meaning nodes.now).nodes node)) }
{
    match nodes.content(node) {
        Some(bytes) => Ok(Some(BodyRow::Bytes(Bytes::copied(alloc, bytes)?))),
        None => listing(alloc, nodes, node),
    }
}

/// The entries of a directory, if it is there.
fn listing<S: Server>(
    alloc: Global,
    nodes: &Nodes<S>,
    dir: NodeName,
) -> Result<Option<BodyRow>, AllocError>
    ensures { content_of (shown S.meaning nodes.now).nodes dir ≡ None → IfOk result (λ row. row ≡ option_map body_row (body_in (shown S.meaning nodes.now).nodes dir)) }
{
    match nodes.names(alloc, dir) {
        Ok(names) => Ok(Some(BodyRow::Entries(entries(alloc, nodes, dir, &names)?))),
        Err(Errno::ENOMEM) => Err(AllocError),
        Err(_) => Ok(None),
    }
}

/// The entries of these names in a directory.
fn entries<S: Server>(
    alloc: Global,
    nodes: &Nodes<S>,
    dir: NodeName,
    names: &Names,
) -> Result<EntryRows, AllocError>
    ensures { IfOk result (λ rows. rows ≡ rows_in (body_in (shown S.meaning nodes.now).nodes dir) names.now) }
{
    let mut rows = Vec::new(alloc);
    for name in names.as_slice() {
        add_entry(alloc, &mut rows, nodes, dir, name)?;
    }
    Ok(EntryRows { items: rows })
}

/// The entry of a name in a directory, if there is one.
fn add_entry<S: Server>(
    alloc: Global,
    rows: &mut Vec<EntryRow>,
    nodes: &Nodes<S>,
    dir: NodeName,
    name: &Bytes,
) -> Result<(), AllocError>
    ensures { OnOk result (rows.new.items ≡ rows.old.items ++ entry_before name.now (entry_of name.now (body_in (shown S.meaning nodes.now).nodes dir)) []) }
{
    if let Some(node) = nodes.step(dir, name.as_slice()) {
        let name = Bytes::copied(alloc, name.as_slice())?;
        rows.push(EntryRow { name, node })?;
    }
    Ok(())
}

/// How many opens read a node, and how many write it, if that is seen.
fn ends_of<S: Server>(core: &Core<S>, sight: &Sight, name: Name) -> Option<Option<Ends>>
    ensures { result ≡ (row_of (world_of S.meaning core.now) sight.now name).ends }
{
    if !sight.sees(core.nodes(), SeenPart::Ends(name)) {
        return None;
    }
    Some(core.ends(name))
}

/// What is seen of an open.
fn opened_of<S: Server>(core: &Core<S>, sight: &Sight, name: Name) -> Option<OpenRow>
    ensures { result ≡ (row_of (world_of S.meaning core.now) sight.now name).opened }
{
    if !sight.sees(core.nodes(), SeenPart::Open(name)) {
        return None;
    }
    let ports = core.ports();
    Some(OpenRow {
        opened: ports.opened(name),
        holders: ports.holders(name),
    })
}

/// What is seen of a server.
fn server_of<S: Server>(
    alloc: Global,
    core: &Core<S>,
    sight: &Sight,
    name: Name,
) -> Result<Option<Option<ServerRow>>, AllocError>
    ensures { IfOk result (λ row. row ≡ (row_of (world_of S.meaning core.now) sight.now name).server) }
{
    if !sight.sees(core.nodes(), SeenPart::Options(name)) {
        return Ok(None);
    }
    Ok(Some(server_row(alloc, core.nodes(), name)?))
}

/// A server, if it is there.
fn server_row<S: Server>(
    alloc: Global,
    nodes: &Nodes<S>,
    server: ServerName,
) -> Result<Option<ServerRow>, AllocError>
    ensures { IfOk result (λ row. row ≡ option_map server_row (fin.get (shown S.meaning nodes.now).servers server)) }
{
    let Some(program) = program_of(alloc, nodes, server)? else {
        return Ok(None);
    };
    let Some(root) = nodes.root_of(server) else {
        return Ok(None);
    };
    let Some(text) = nodes.told_text_of(server) else {
        return Ok(None);
    };
    let Some(ids) = nodes.ids_of(server) else {
        return Ok(None);
    };
    let Some(targets) = nodes.targets_of(server) else {
        return Ok(None);
    };
    Ok(Some(ServerRow {
        program,
        text: Bytes::copied(alloc, text)?,
        root,
        ids: ids.copied(alloc)?,
        targets: NodeNames::copied(alloc, targets)?,
    }))
}

/// The program and its words, as they would be given to make such a server, if it is there.
fn options_of<S: Server>(
    alloc: Global,
    nodes: &Nodes<S>,
    server: ServerName,
) -> Result<Option<Words>, AllocError>
    ensures { IfOk result (λ words. words ≡ option_map (λ (i : ServerInfo). options_of i.kind i.text) (fin.get (shown S.meaning nodes.now).servers server)) }
{
    match nodes.options(alloc, server) {
        Ok(words) => Ok(Some(words)),
        Err(Errno::ENOMEM) => Err(AllocError),
        Err(_) => Ok(None),
    }
}

/// The name of a server's program, if the server is there.
fn program_of<S: Server>(
    alloc: Global,
    nodes: &Nodes<S>,
    server: ServerName,
) -> Result<Option<Bytes>, AllocError>
    ensures { IfOk result (λ program. program ≡ option_map (λ (i : ServerInfo). first_word (options_of i.kind i.text)) (fin.get (shown S.meaning nodes.now).servers server)) }
{
    match options_of(alloc, nodes, server)? {
        Some(options) => Ok(Some(first_word(alloc, &options)?)),
        None => Ok(None),
    }
}

/// The first of some words.
fn first_word(alloc: Global, words: &Words) -> Result<Bytes, AllocError>
    ensures { IfOk result (λ word. word ≡ first_word words.now) }
{
    match words.as_slice() {
        [word, ..] => Bytes::copied(alloc, word.as_slice()),
        [] => Bytes::copied(alloc, &[]),
    }
}

/// What is seen of the text of a server.
fn text_of<S: Server>(
    alloc: Global,
    core: &Core<S>,
    sight: &Sight,
    name: Name,
) -> Result<Option<Option<TextRow>>, AllocError>
    ensures { IfOk result (λ row. row ≡ (row_of (world_of S.meaning core.now) sight.now name).text) }
{
    if !sight.sees(core.nodes(), SeenPart::Text(name)) {
        return Ok(None);
    }
    Ok(Some(text_row(alloc, core.nodes(), name)?))
}

/// The text of a server, if the server is there.
fn text_row<S: Server>(
    alloc: Global,
    nodes: &Nodes<S>,
    server: ServerName,
) -> Result<Option<TextRow>, AllocError>
    ensures { IfOk result (λ row. row ≡ option_map text_row (fin.get (shown S.meaning nodes.now).servers server)) }
{
    let Some(options) = options_of(alloc, nodes, server)? else {
        return Ok(None);
    };
    let Some(text) = nodes.text_of(server) else {
        return Ok(None);
    };
    let text = Bytes::copied(alloc, text)?;
    Ok(Some(TextRow { options, text }))
}

/// How many rights there are on a server's nodes, if that is seen.
fn users_of<S: Server>(core: &Core<S>, sight: &Sight, name: Name) -> Option<u128>
    ensures { result ≡ (row_of (world_of S.meaning core.now) sight.now name).users }
{
    if !sight.sees(core.nodes(), SeenPart::Users(name)) {
        return None;
    }
    Some(core.users(name))
}

/// What the files of a server that entries name have in all, if that is seen.
fn total_of<S: Server>(core: &Core<S>, sight: &Sight, name: Name) -> Option<u128>
    ensures { result ≡ (row_of (world_of S.meaning core.now) sight.now name).total }
{
    if !sight.sees(core.nodes(), SeenPart::Total(name)) {
        return None;
    }
    core.nodes().total_of(name)
}
