// The fields of a level by their names.
ghost use Rattle.std.specs.Prelude.{◌≡◌, ◌<◌, IfOk, OnOk, length, option_map};
ghost use Rattle.std.specs.Cmp.Lexicographic.{slice_cmp};
ghost use Rattle.std.specs.Ordering.{nat_cmp};
ghost use Rattle.synthetic_source.specs.Groups.{empty_group, first_of as first, groups_after, groups_in, joined, put_in, split};
ghost use Rattle.synthetic_source.specs.Places.{Rise, place_among, seen_place as place};
ghost use Rattle.synthetic_source.specs.Seen.{content_data, group_names, path_bytes, seen_all, seen_cut, seen_group, seen_groups};

use crate::content::Content;
use edge_face::{NoMemory, bytes_order};
use std::alloc::Global;
use std::cmp::Ordering;

/// A field with a value: its path from some level on, and what it shows.
#[derive(Clone, Copy)]
pub struct Entry<'a> {
    pub path: &'a str,
    pub content: Content<'a>,
}

/// The fields whose paths begin with a name: one that has it as its path, and those below it.
#[derive(Drop)]
pub struct Group<'a> {
    pub name: &'a str,
    pub content: Option<Content<'a>>,
    pub below: Vec<Entry<'a>>,
}

/// A path at its level.
#[derive(Clone, Copy)]
struct Cut<'a> {
    name: &'a str,
    rest: Option<&'a str>,
}

fn cut_first(path: &str) -> Cut<'_>
    ensures { seen_cut result ≡ split path.now }
{
    match path.split_once('.') {
        None => Cut {
            name: path,
            rest: None,
        },
        Some((name, rest)) => Cut {
            name,
            rest: Some(rest),
        },
    }
}

fn first_of<'a>(had: Option<Content<'a>>, content: Content<'a>) -> Option<Content<'a>>
    ensures { option_map content_data result ≡ first (option_map content_data had.entry) (content_data content.entry) }
{
    match had {
        None => Some(content),
        Some(content) => Some(content),
    }
}

fn join<'a>(
    group: &mut Group<'a>,
    rest: Option<&'a str>,
    content: Content<'a>,
) -> Result<(), NoMemory>
    ensures { OnOk result (seen_group group.new
        ≡ joined (path_bytes rest.entry) (content_data content.entry) (seen_group group.old)) }
{
    match rest {
        None => group.content = first_of(group.content, content),
        Some(path) => group.below.push(Entry { path, content })?,
    }
    Ok(())
}

fn new_group<'a>(alloc: Global, path: Cut<'a>, content: Content<'a>) -> Result<Group<'a>, NoMemory>
    ensures { IfOk result (λ group. seen_group group
        ≡ joined (path_bytes path.entry.rest) (content_data content.entry) (empty_group path.entry.name.now)) }
{
    let mut group = Group {
        name: path.name,
        content: None,
        below: Vec::new(alloc),
    };
    join(&mut group, path.rest, content)?;
    Ok(group)
}

fn compare_name(group: &Group<'_>, name: &str) -> Ordering
    ensures { result ≡ slice_cmp nat_cmp group.now.name.now name.now }
{
    bytes_order(group.name.as_bytes(), name.as_bytes())
}

fn search_group(groups: &[Group<'_>], name: &str) -> Result<usize, usize>
    requires { Rise (group_names groups.now) }
    ensures { place result ≡ place_among name.now (group_names groups.now) }
{
    let mut low = 0;
    let mut high = groups.len();
    'search: while low < high {
        let middle = low + (high - low) / 2;
        match compare_name(&groups[middle], name) {
            Ordering::Less => low = middle + 1,
            Ordering::Equal => return Ok(middle),
            Ordering::Greater => high = middle,
        }
    }
    Err(low)
}

// The place of the group of a name. Paths mostly come in the order of their names, so the last group is looked at first. Since
// paths ascend, a name comes before others only where it begins them.
fn find_group(groups: &[Group<'_>], name: &str) -> Result<usize, usize>
    requires { Rise (group_names groups.now) }
    ensures { place result ≡ place_among name.now (group_names groups.now) }
{
    let count = groups.len();
    if count == 0 {
        return Err(0);
    }
    match compare_name(&groups[count - 1], name) {
        Ordering::Less => Err(count),
        Ordering::Equal => Ok(count - 1),
        Ordering::Greater => search_group(groups, name),
    }
}

fn add<'a>(alloc: Global, groups: &mut Vec<Group<'a>>, entry: Entry<'a>) -> Result<(), NoMemory>
    requires { Rise (group_names groups.old.items) }
    ensures seen { OnOk result (seen_groups groups.new.items
        ≡ put_in (split entry.entry.path.now) (content_data entry.entry.content) (seen_groups groups.old.items)) }
    ensures rise { OnOk result (Rise (group_names groups.new.items)) }
{
    let path = cut_first(entry.path);
    match find_group(groups.as_slice(), path.name) {
        Ok(at) => join(&mut groups[at], path.rest, entry.content)?,
        Err(at) => groups.insert(at, new_group(alloc, path, entry.content)?)?,
    }
    Ok(())
}

/// The fields of a level, by their names in byte order.
pub fn groups_of<'a>(alloc: Global, entries: &[Entry<'a>]) -> Result<Vec<Group<'a>>, NoMemory>
    ensures { IfOk result (λ groups. seen_groups groups.items ≡ groups_in (seen_all entries.now)) }
{
    let mut groups = Vec::with_capacity(alloc, entries.len())?;
    for entry in entries {
        add(alloc, &mut groups, *entry)?;
    }
    Ok(groups)
}
