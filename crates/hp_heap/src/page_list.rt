ghost use Rattle.std.specs.Prelude.{◌≡◌, ◌+◌, ◌*◌, ◌<◌, ◌≤◌, Some, None, IsSome, IfSome, IfNone, vec_len, vec_capacity};
ghost use Rattle.hp_heap.specs.PageLists.{list_at, list_of_run, IsPlaceOf, IsNoted};

use hp_base::Run;

/// A segment list of whose pages a heap has some, or had: the size of a page and the address of slot 0, in bytes, the
/// number of the list and its socket. After rte_memseg_list.
#[derive(Clone, Copy)]
pub struct PageList {
    pub page: u64,
    pub base: u64,
    pub list: u32,
    pub socket: u32,
}

/// Notes the list of a run, in the place of what was noted under its number. There is room for one more.
pub fn note(lists: &mut Vec<PageList>, run: &Run)
    requires base { run.now.first * run.now.page ≤ run.now.addr }
    requires room { vec_len lists.old < vec_capacity lists.old }
    ensures noted { IsNoted run.now lists.old.items lists.new.items }
    ensures len { vec_len lists.new ≤ vec_len lists.old + 1 }
    ensures capacity { vec_capacity lists.new ≡ vec_capacity lists.old }
{
    let entry = list_of_run(run);
    match place_of(lists.as_slice(), run.list) {
        Some(place) => lists[place] = entry,
        None => lists.push_reserved(entry),
    }
}

/// The list that is noted under a number.
pub fn list_of(lists: &[PageList], list: u32) -> PageList
    requires { IsSome (list_at list lists.now) }
    ensures { list_at list lists.now ≡ Some result }
{
    let Some(place) = place_of(lists, list) else {
        unreachable!()
    };
    lists[place]
}

fn list_of_run(run: &Run) -> PageList
    requires { run.now.first * run.now.page ≤ run.now.addr }
    ensures { result ≡ list_of_run run.now }
{
    PageList {
        page: run.page,
        base: run.addr - u64::from(run.first) * run.page,
        list: run.list,
        socket: run.socket,
    }
}

fn place_of(lists: &[PageList], list: u32) -> Option<usize>
    ensures found { IfSome result (IsPlaceOf lists.now list) }
    ensures none { IfNone result (list_at list lists.now ≡ None) }
{
    lists.iter().position(|entry| entry.list == list)
}
