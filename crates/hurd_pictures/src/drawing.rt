//! The whole picture.
ghost use Rattle.std.specs.Prelude.{◌≡◌, ◌++◌, option_copied, IfOk, OnOk};
ghost use Rattle.hurd_pictures.specs.Pictures.{colours, drawn, drawn_at, helped_cell, legend, names_of, picture, row_text, rows_text};

use crate::bytes::{push_shown, push_text};
use crate::names::Titles;
use crate::nodes::{mark_of, push_listing, push_node};
use crate::servers::{push_active, push_served};
use crate::tasks::push_seats;
use hurd_creds::{Bytes, Name, TaskId};
use hurd_views::{Row, View};
use std::alloc::{AllocError, Global};

/// What a picture begins with.
const HEAD: &[u8] =
    b"digraph hurd {\n  rankdir=LR; nodesep=0.3; ranksep=0.6; fontname=\"Helvetica\"; fontsize=14;\n  style=\"rounded,filled\"; color=\"#8a93a6\"; fillcolor=\"#f4f6fb\"; bgcolor=white;\n  node [fontname=\"Helvetica\", fontsize=13, style=filled, fillcolor=white];\n  edge [fontname=\"Helvetica\", fontsize=11, arrowsize=0.7];\n";

/// What is in front of those who are marked.
const LEGEND: &[u8] = b"  label=<<table border=\"0\" cellspacing=\"6\"><tr><td>What <b>";

/// What comes after them: the colours.
const LEGEND_COLOURS: &[u8] =
    b"</b>:</td><td border=\"2\" color=\"#c98a00\" bgcolor=\"#ffe08a\">all of it</td><td border=\"2\" color=\"#c98a00\" bgcolor=\"white\">that it is there, its owner, mode and size</td><td border=\"1\" style=\"dashed\" color=\"#9a9a9a\" bgcolor=\"#ececec\"><font color=\"#6a6a6a\">nothing of it</font></td>";

/// What the legend ends with.
const LEGEND_END: &[u8] = b"</tr></table>>;\n";

/// The colour of what others could show more of, if there is a wider view.
fn helped_cell(wide: Option<&View>) -> &'static [u8]
    ensures { result.now ≡ helped_cell (option_copied wide.entry) }
{
    match wide {
        Some(_) => {
            b"<td border=\"2\" color=\"#0b5cad\" bgcolor=\"#d3e4f8\">users other than root could show more of it</td>"
        }
        None => b"",
    }
}

/// Adds who are marked, and what the colours say, with these cells more.
fn push_colours(text: &mut Vec<u8>, who: &[u8], more: &[u8]) -> Result<(), AllocError>
    ensures { OnOk result (text.new.items ≡ text.old.items ++ colours who.now more.now) }
{
    push_text(text, LEGEND)?;
    push_shown(text, who)?;
    push_text(text, LEGEND_COLOURS)?;
    push_text(text, more)?;
    push_text(text, LEGEND_END)
}

/// Adds the legend, if any are marked.
fn push_legend(
    text: &mut Vec<u8>,
    who: &[u8],
    theirs: Option<&View>,
    wide: Option<&View>,
) -> Result<(), AllocError>
    ensures { OnOk result (text.new.items ≡ text.old.items ++ legend who.now (option_copied theirs.entry) (option_copied wide.entry)) }
{
    match theirs {
        Some(_) => push_colours(text, who, helped_cell(wide)),
        None => Ok(()),
    }
}

/// Adds what is drawn of a row: its node, its server, the arrows to its entries, and that to the root of the server that is active on it.
fn push_row(
    text: &mut Vec<u8>,
    titles: &Titles,
    view: &View,
    theirs: Option<&View>,
    wide: Option<&View>,
    name: Name,
    row: &Row,
) -> Result<(), AllocError>
    ensures { OnOk result (text.new.items ≡ text.old.items ++ row_text titles.now view.now (option_copied theirs.entry) (option_copied wide.entry) name row.now) }
{
    push_node(text, titles, view, mark_of(theirs, wide, name), name, row)?;
    push_served(text, titles, view, name, row)?;
    push_listing(text, view, name, row)?;
    push_active(text, view, name, row)
}

/// Adds what is drawn of a name, if it has a row.
fn push_drawn(
    text: &mut Vec<u8>,
    titles: &Titles,
    view: &View,
    theirs: Option<&View>,
    wide: Option<&View>,
    name: Name,
) -> Result<(), AllocError>
    ensures { OnOk result (text.new.items ≡ text.old.items ++ drawn titles.now view.now (option_copied theirs.entry) (option_copied wide.entry) name) }
{
    match view.rows.get(name) {
        Some(row) => push_row(text, titles, view, theirs, wide, name, row),
        None => Ok(()),
    }
}

/// Adds what is drawn of a name that may be there.
fn push_drawn_at(
    text: &mut Vec<u8>,
    titles: &Titles,
    view: &View,
    theirs: Option<&View>,
    wide: Option<&View>,
    name: Option<Name>,
) -> Result<(), AllocError>
    ensures { OnOk result (text.new.items ≡ text.old.items ++ drawn_at titles.now view.now (option_copied theirs.entry) (option_copied wide.entry) name) }
{
    match name {
        Some(name) => push_drawn(text, titles, view, theirs, wide, name),
        None => Ok(()),
    }
}

/// Adds what is drawn of each name of a view, in its order.
fn push_rows(
    text: &mut Vec<u8>,
    titles: &Titles,
    view: &View,
    theirs: Option<&View>,
    wide: Option<&View>,
) -> Result<(), AllocError>
    ensures { OnOk result (text.new.items ≡ text.old.items ++ rows_text titles.now view.now (option_copied theirs.entry) (option_copied wide.entry) (names_of view.now)) }
{
    for i in 0..view.rows.len() {
        push_drawn_at(text, titles, view, theirs, wide, view.rows.name_at(i))?;
    }
    Ok(())
}

/// A picture of all that these tasks see in a view, as text for Graphviz. Where there is a view of others, it is marked what these see, and the
/// legend says who they are, by these words, as `alice sees`.
///
/// Where there is a wider view too, it is marked of which nodes that shows more. Fails only if memory runs out.
pub fn picture(
    alloc: Global,
    titles: &Titles,
    tasks: &[TaskId],
    view: &View,
    who: &[u8],
    theirs: Option<&View>,
    wide: Option<&View>,
) -> Result<Bytes, AllocError>
    ensures { IfOk result (λ text. text ≡ picture titles.now tasks.now view.now who.now (option_copied theirs.entry) (option_copied wide.entry)) }
{
    let mut text = Vec::from_slice(alloc, HEAD)?;
    push_legend(&mut text, who, theirs, wide)?;
    push_rows(&mut text, titles, view, theirs, wide)?;
    push_seats(&mut text, titles, view, tasks, view.seats.as_slice())?;
    push_text(&mut text, b"}\n")?;
    Ok(Bytes::new(text))
}
