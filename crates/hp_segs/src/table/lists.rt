//! The segment lists of the pools, and the number of each by its socket and page size.
ghost use Rattle.std.specs.Prelude.{◌≡◌, ℕ, ◌<◌, ◌==◌, [], ◌∷◌, ◌++◌, IfOk, IsSome, OnOk, Some, length, position, slice_index_or};
ghost use Rattle.hp_base.specs.Pages.{page_sizes};
ghost use Rattle.hp_segs.specs.Lists.{list_number};
ghost use Rattle.hp_segs.specs.ListNumbers.{number_place};

use crate::list_info::ListInfo;
use hp_base::{MAX_SOCKETS, PAGE_SIZES};
use std::alloc::{AllocError, Global};
use std::marker::Model;

// The lists in their order.
#[derive(Drop)]
pub(crate) struct Lists {
    infos: Vec<ListInfo>,
    // The number of the first list of each socket and page size.
    numbers: Box<[Option<u8>; 256]>,
}

impl Model for Lists {
    ghost use Rattle.std.specs.Prelude.{List};
    ghost use Rattle.hp_segs.specs.declared.list_info.ListInfo.{ListInfo};
    ghost use Rattle.hp_segs.specs.ListNumbers.{AreNumbered};

    ghost Value = { List ListInfo };

    ghost view = { λ lists. lists.infos.items };

    ghost invariant = { λ lists. AreNumbered lists.infos.items lists.numbers.value };
}

// Where the number of a page size stands among those of a socket.
fn size_place(page: u64) -> Option<usize>
    ensures { result ≡ position (λ size. size == page) page_sizes }
{
    PAGE_SIZES.iter().position(|size| *size == page)
}

// Where the number of a socket and a page size stands.
fn number_place(socket: u32, page: u64) -> Option<usize>
    ensures { result ≡ number_place socket page }
{
    if socket >= MAX_SOCKETS {
        return None;
    }
    match size_place(page) {
        Some(size) => Some(socket as usize * PAGE_SIZES.len() + size),
        None => None,
    }
}

impl Lists {
    // No lists.
    pub(crate) fn new(alloc: Global) -> Result<Lists, AllocError>
        ensures { IfOk result (λ lists. lists ≡ []) }
    {
        let numbers = Box::new(alloc, [None; 256])?;
        Ok(Lists {
            infos: Vec::new(alloc),
            numbers,
        })
    }

    // One list more.
    pub(crate) fn push(&mut self, info: ListInfo) -> Result<(), AllocError>
        requires few { length self.old < 128 }
        requires placed { IsSome (number_place info.socket info.page) }
        ensures { OnOk result (self.new ≡ self.old ++ info ∷ []) }
    {
        let number = self.infos.len() as u8;
        let Some(place) = number_place(info.socket, info.page) else {
            unreachable!()
        };
        self.infos.push(info)?;
        if let None = self.numbers[place] {
            self.numbers[place] = Some(number);
        }
        Ok(())
    }

    pub(crate) fn as_slice(&self) -> &[ListInfo]
        ensures { result.now ≡ self.now }
    {
        self.infos.as_slice()
    }

    // The list of that number.
    pub(crate) fn list(&self, list: usize) -> &ListInfo
        requires { list < length self.now }
        ensures { result.now ≡ slice_index_or self.now list result.now }
    {
        &self.infos[list]
    }

    // The number of the list of a socket and a page size.
    pub(crate) fn number_of(&self, socket: u32, page: u64) -> Option<usize>
        ensures { result ≡ list_number self.now socket page }
    {
        let numbers = &self.numbers;
        let Some(place) = number_place(socket, page) else {
            return None;
        };
        match numbers[place] {
            Some(number) => Some(usize::from(number)),
            None => None,
        }
    }
}
