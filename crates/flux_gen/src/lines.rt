//! The lines that are written.
ghost use Rattle.std.specs.Prelude.{◌≡◌, ◌++◌, OnOk};
ghost use Rattle.std.specs.Fmt.{decimal};
ghost use Rattle.flux_model.specs.GraphText.{vertex_line, triple_line};
ghost use Rattle.flux_model.specs.declared.graph.Update.TheVariants.{DropVertex, DropEdge};
ghost use Rattle.flux_model.specs.Generated.{vertex_of, update_line};
ghost use Rattle.flux_gen.specs.Drawn.{edge_triple};

use crate::draws::Edge;
use itoa::Buffer;
use std::alloc::AllocError;

/// Writes a number.
fn write_number(number: u32, out: &mut Vec<u8>) -> Result<(), AllocError>
    ensures { OnOk result (out.new.items ≡ out.old.items ++ decimal number) }
{
    let mut digits = Buffer::new();
    out.extend_from_slice(digits.format(number).as_bytes())
}

/// Writes the line `v ID Lx`.
pub(crate) fn write_vertex(id: u32, label: u32, out: &mut Vec<u8>) -> Result<(), AllocError>
    ensures { OnOk result (out.new.items ≡ out.old.items ++ vertex_line (vertex_of id label)) }
{
    out.extend_from_slice(b"v ")?;
    write_number(id, out)?;
    out.extend_from_slice(b" L")?;
    write_number(label, out)?;
    out.extend_from_slice(b"\n")
}

/// Writes the line `e SRC DST ry`.
pub(crate) fn write_edge(edge: &Edge, out: &mut Vec<u8>) -> Result<(), AllocError>
    ensures { OnOk result (out.new.items ≡ out.old.items ++ triple_line (edge_triple edge.now)) }
{
    out.extend_from_slice(b"e ")?;
    write_number(edge.src, out)?;
    out.extend_from_slice(b" ")?;
    write_number(edge.dst, out)?;
    out.extend_from_slice(b" r")?;
    write_number(edge.label, out)?;
    out.extend_from_slice(b"\n")
}

/// Writes the line `-e SRC DST ry`.
pub(crate) fn write_removed_edge(edge: &Edge, out: &mut Vec<u8>) -> Result<(), AllocError>
    ensures { OnOk result (out.new.items ≡ out.old.items ++ update_line (DropEdge (edge_triple edge.now))) }
{
    out.extend_from_slice(b"-")?;
    write_edge(edge, out)
}

/// Writes the line `-v ID`.
pub(crate) fn write_removed_vertex(id: u32, out: &mut Vec<u8>) -> Result<(), AllocError>
    ensures { OnOk result (out.new.items ≡ out.old.items ++ update_line (DropVertex id)) }
{
    out.extend_from_slice(b"-v ")?;
    write_number(id, out)?;
    out.extend_from_slice(b"\n")
}
