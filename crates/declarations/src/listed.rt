//! The procedures of a program, in their order.

ghost use Rattle.std.specs.Prelude.{◌≡◌, ◌+◌, ◌<◌, ◌^◌, ◌++◌, length, map, IfOk, OnOk};
ghost use Rattle.name_table.specs.Noting.{section_procedures};
ghost use Rattle.source_tree.specs.Procedures.{paragraph_procedures, paragraphs_or_one, procedures_of};
ghost use Rattle.declarations.specs.Listed.{procedure_of};

use name_table::ParagraphRange;
use source_tree::{Name, Paragraph, Section};
use std::alloc::{AllocError, Global};

/// A section or a paragraph: its name, if it has one, and the paragraphs that are in it.
#[derive(Clone, Copy)]
pub struct Procedure<'a> {
    pub name: Option<&'a Name>,
    pub range: ParagraphRange,
}

/// Paragraphs, of which the first has that number.
fn list_paragraphs<'a>(
    paragraphs: &'a [Paragraph],
    first: usize,
    out: &mut Vec<Procedure<'a>>,
) -> Result<(), AllocError>
    requires { first + length paragraphs.now < 2 ^ 64 }
    ensures { OnOk result (map procedure_of out.new.items
        ≡ map procedure_of out.old.items ++ paragraph_procedures first paragraphs.now) }
{
    for (i, paragraph) in paragraphs.iter().enumerate() {
        let number = first + i;
        let range = ParagraphRange {
            first: number,
            last: number,
        };
        let name = paragraph.name.as_ref();
        out.push(Procedure { name, range })?;
    }
    Ok(())
}

/// The paragraphs of a section, of which the first has that number; without any it has one.
fn list_some<'a>(
    paragraphs: &'a [Paragraph],
    first: usize,
    out: &mut Vec<Procedure<'a>>,
) -> Result<(), AllocError>
    requires { first + length (paragraphs_or_one paragraphs.now) < 2 ^ 64 }
    ensures { OnOk result (map procedure_of out.new.items ≡ map procedure_of out.old.items
        ++ paragraph_procedures first (paragraphs_or_one paragraphs.now)) }
{
    match paragraphs {
        [] => {
            let range = ParagraphRange { first, last: first };
            out.push(Procedure { name: None, range })?;
            Ok(())
        }
        _ => list_paragraphs(paragraphs, first, out),
    }
}

/// A section and its paragraphs, of which the first has that number. Answers the number of the next paragraph.
fn list_section<'a>(
    section: &'a Section,
    first: usize,
    out: &mut Vec<Procedure<'a>>,
) -> Result<usize, AllocError>
    ensures next { IfOk result
        (λ next. next ≡ first + length (paragraphs_or_one section.now.paragraphs)) }
    ensures listed { OnOk result (map procedure_of out.new.items
        ≡ map procedure_of out.old.items ++ section_procedures first section.now) }
{
    let paragraphs = section.paragraphs.as_slice();
    let Some(next) = first.checked_add(paragraphs.len().max(1)) else {
        return Err(AllocError);
    };
    let name = section.name.as_ref();
    let range = ParagraphRange {
        first,
        last: next - 1,
    };
    out.push(Procedure { name, range })?;
    list_some(paragraphs, first, out)?;
    Ok(next)
}

/// The procedures of sections, each section before its paragraphs.
pub(crate) fn listed_procedures<'a>(
    alloc: Global,
    sections: &'a [Section],
) -> Result<Vec<Procedure<'a>>, AllocError>
    ensures { IfOk result (λ all. map procedure_of all.items ≡ procedures_of sections.now) }
{
    let mut all = Vec::new(alloc);
    let mut first = 0;
    for section in sections {
        first = list_section(section, first, &mut all)?;
    }
    Ok(all)
}
