//! The rows of calls on chains of pages. The record of a number has at each place the sum of the number and the place, less all 251s.
use crate::answer::{Answer, DONE, number_answer, whether};
use crate::calls::ChainCall;
use crate::operands::Operands;
use crate::volume::Volume;
use std::alloc::{AllocError, Global};

/// Makes a call on a chain with the operands of its row.
pub fn chain_call(
    alloc: Global,
    volume: &mut Volume,
    call: ChainCall,
    operands: &mut Operands<'_>,
) -> Answer {
    let one = operands.number();
    let other = operands.number();
    match call {
        ChainCall::Lay => lay_record(alloc, volume, one, other),
        ChainCall::Release => {
            volume.release(one, other as usize);
            DONE
        }
        ChainCall::Bytes => {
            let text = operands.text(alloc);
            whether(has_text(&volume.page(one), other as usize, &text))
        }
        ChainCall::Zeros => whether(has_zeros(&volume.page(one), other as usize)),
        ChainCall::Record | ChainCall::Fill | ChainCall::Rewrite => {
            record_call(alloc, volume, call, one, other, operands.number())
        }
    }
}

/// The record of a number with so many bytes.
fn record_of(alloc: Global, number: u32, count: u32) -> Result<Vec<u8>, AllocError> {
    let mut record = Vec::new(alloc);
    for place in 0..count {
        record.push((number.wrapping_add(place) % 251) as u8)?;
    }
    Ok(record)
}

/// `lay N COUNT`: the first page of a new chain.
fn lay_record(alloc: Global, volume: &mut Volume, number: u32, count: u32) -> Answer {
    match record_of(alloc, number, count) {
        Ok(record) => number_answer(volume.lay(&record) as u64),
        Err(_) => Answer::NoMemory,
    }
}

/// `record PAGE N COUNT`, `fill PAGE N COUNT` and `rewrite PAGE N COUNT`.
fn record_call(
    alloc: Global,
    volume: &mut Volume,
    call: ChainCall,
    page: u32,
    number: u32,
    count: u32,
) -> Answer {
    match record_of(alloc, number, count) {
        Ok(record) => call_with_record(alloc, volume, call, page, &record),
        Err(_) => Answer::NoMemory,
    }
}

fn call_with_record(
    alloc: Global,
    volume: &mut Volume,
    call: ChainCall,
    page: u32,
    record: &[u8],
) -> Answer {
    match call {
        ChainCall::Fill => compare_filled(alloc, volume, page, record),
        ChainCall::Rewrite => {
            volume.rewrite(page, record);
            DONE
        }
        _ => whether(volume.has_record(page, record)),
    }
}

/// Whether the chain from a page on fills bytes with this record.
fn compare_filled(alloc: Global, volume: &mut Volume, page: u32, record: &[u8]) -> Answer {
    match vec![in alloc; 0u8; record.len()] {
        Ok(mut bytes) => whether(volume.fills(page, record, &mut bytes)),
        Err(_) => Answer::NoMemory,
    }
}

/// `bytes PAGE PLACE TEXT`: whether a page has these bytes from a place on.
fn has_text(bytes: &[u8], place: usize, text: &[u8]) -> bool {
    match bytes.get(place..) {
        Some(rest) => rest.starts_with(text),
        None => false,
    }
}

/// `zeros PAGE PLACE`: whether the bytes of a page are zeros from a place on.
fn has_zeros(bytes: &[u8], place: usize) -> bool {
    for byte in bytes.iter().skip(place) {
        if *byte != 0 {
            return false;
        }
    }
    true
}
