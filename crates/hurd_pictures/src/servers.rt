//! A server's box, what it aims at, and on which nodes servers are active.
ghost use Rattle.std.specs.Prelude.{◌≡◌, ◌++◌, OnOk, Some};
ghost use Rattle.hurd_pictures.specs.Servers.{active_text, box_label, called_text, marked_label, program_text, served_by, served_text, server_text, target_text, targets_text};

use crate::bytes::{push_short, push_text};
use crate::names::{Titles, active_of, push_words, root_of};
use crate::nodes::{box_end, push_arrow, push_box, push_unseen};
use hurd_creds::{NodeName, ServerName};
use hurd_views::{Row, ServerRow, TextRow, View};
use std::alloc::AllocError;

/// Adds an arrow from a server's root to a target.
fn push_target(
    text: &mut Vec<u8>,
    view: &View,
    root: NodeName,
    target: NodeName,
) -> Result<(), AllocError>
    ensures { OnOk result (text.new.items ≡ text.old.items ++ target_text view.now root target) }
{
    push_unseen(text, view, root)?;
    push_unseen(text, view, target)?;
    push_arrow(text, root, target)?;
    push_text(
        text,
        b" [style=dotted, penwidth=2, color=\"#1f6f43\", fontcolor=\"#1f6f43\", label=<shows>, constraint=false];\n",
    )
}

/// Adds an arrow from a server's root to each of its targets.
fn push_targets(
    text: &mut Vec<u8>,
    view: &View,
    root: NodeName,
    targets: &[NodeName],
) -> Result<(), AllocError>
    ensures { OnOk result (text.new.items ≡ text.old.items ++ targets_text view.now root targets.now) }
{
    for target in targets {
        push_target(text, view, root, *target)?;
    }
    Ok(())
}

/// Adds a mark and the first of some bytes after a space, where there are any bytes.
fn push_marked_label(text: &mut Vec<u8>, mark: &[u8], bytes: &[u8]) -> Result<(), AllocError>
    ensures { OnOk result (text.new.items ≡ text.old.items ++ marked_label mark.now bytes.now) }
{
    if bytes.is_empty() {
        return Ok(());
    }
    push_text(text, b" ")?;
    push_text(text, mark)?;
    push_short(text, bytes)
}

/// Adds the program of a server, and after it a link's text, or the word that says a tree's limit.
fn push_program(text: &mut Vec<u8>, server: &ServerRow) -> Result<(), AllocError>
    ensures { OnOk result (text.new.items ≡ text.old.items ++ program_text server.now) }
{
    push_short(text, server.program.as_slice())?;
    push_marked_label(text, server.text_mark(), server.text.as_slice())
}

/// Adds what a server's box is called: by its words where they are seen, else by its program.
fn push_called(
    text: &mut Vec<u8>,
    server: &ServerRow,
    words: &Option<Option<TextRow>>,
) -> Result<(), AllocError>
    ensures { OnOk result (text.new.items ≡ text.old.items ++ called_text server.now words.now) }
{
    match words {
        Some(Some(words)) => push_words(text, words.options.as_slice()),
        _ => push_program(text, server),
    }
}

/// Adds the label of a server's box: what it is called, and whom it runs as.
#[tactic(auto, unfolding(crate::specs::Servers::box_label))]
fn push_box_label(
    text: &mut Vec<u8>,
    titles: &Titles,
    server: &ServerRow,
    words: &Option<Option<TextRow>>,
) -> Result<(), AllocError>
    ensures { OnOk result (text.new.items ≡ text.old.items ++ box_label titles.now server.now words.now) }
{
    push_text(text, b"label=<<b>")?;
    push_called(text, server, words)?;
    push_text(text, b"</b><br/>runs as ")?;
    titles.push_runner(text, &server.ids)?;
    push_text(text, b">;")
}

/// Adds a server that is there: what its box is called, whom it runs as, and what it aims at.
fn push_server(
    text: &mut Vec<u8>,
    titles: &Titles,
    view: &View,
    name: ServerName,
    server: &ServerRow,
    words: &Option<Option<TextRow>>,
) -> Result<(), AllocError>
    ensures { OnOk result (text.new.items ≡ text.old.items ++ server_text titles.now view.now name server.now words.now) }
{
    push_box(text, Some(name))?;
    push_box_label(text, titles, server, words)?;
    push_text(text, box_end(Some(name)))?;
    push_targets(text, view, server.root, server.targets.as_slice())
}

/// Adds the server of a name, where there is one.
pub(crate) fn push_served(
    text: &mut Vec<u8>,
    titles: &Titles,
    view: &View,
    name: ServerName,
    row: &Row,
) -> Result<(), AllocError>
    ensures { OnOk result (text.new.items ≡ text.old.items ++ served_text titles.now view.now name row.now.server row.now.text) }
{
    match &row.server {
        Some(Some(server)) => push_server(text, titles, view, name, server, &row.text),
        _ => Ok(()),
    }
}

/// Adds an arrow from a node to the root of the server that is active on it, if one is.
fn push_served_by(
    text: &mut Vec<u8>,
    view: &View,
    name: NodeName,
    root: Option<NodeName>,
) -> Result<(), AllocError>
    ensures { OnOk result (text.new.items ≡ text.old.items ++ served_by view.now name root) }
{
    let Some(root) = root else {
        return Ok(());
    };
    push_unseen(text, view, root)?;
    push_arrow(text, name, root)?;
    push_text(
        text,
        b" [style=dashed, penwidth=2, color=\"#1f4fa3\", fontcolor=\"#1f4fa3\", label=<served by>];\n",
    )
}

/// The same of a node by its row.
pub(crate) fn push_active(
    text: &mut Vec<u8>,
    view: &View,
    name: NodeName,
    row: &Row,
) -> Result<(), AllocError>
    ensures { OnOk result (text.new.items ≡ text.old.items ++ active_text view.now name row.now.attributes) }
{
    match active_of(&row.attributes) {
        Some(server) => push_served_by(text, view, name, root_of(view, server)),
        None => Ok(()),
    }
}
