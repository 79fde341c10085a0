// A case: the numbers of its line, and its lists one behind the other.
ghost use Rattle.std.specs.Prelude.{◌≤◌, length};

// How many numbers stand before the lists.
const HEAD: usize = 8;

// How many lists there are.
pub(crate) const LISTS: usize = 17;

// What is added to the count of a list of equal entries, of which one is written.
const EQUAL: usize = 65536;

// A case: its numbers, the entries of its lists one behind the other, and where each list ends.
#[derive(Clone, Copy)]
pub(crate) struct Case<'a> {
    pub(crate) numbers: &'a [u32],
    pub(crate) words: &'a [u32],
    pub(crate) ends: &'a [usize],
}

// The six lists of a drawing.
#[derive(Clone, Copy)]
pub(crate) struct Lists<'a> {
    pub(crate) w: &'a [u32],
    pub(crate) x: &'a [u32],
    pub(crate) sl: &'a [u32],
    pub(crate) sv: &'a [u32],
    pub(crate) tl: &'a [u32],
    pub(crate) tv: &'a [u32],
}

// Two maps, of nodes and of operations, and their declared targets.
#[derive(Clone, Copy)]
pub(crate) struct Maps<'a> {
    pub(crate) fw: &'a [u32],
    pub(crate) wd: u32,
    pub(crate) fx: &'a [u32],
    pub(crate) xd: u32,
}

impl<'a> Case<'a> {
    // The number at a place; 0 where there is none.
    pub(crate) fn number(&self, i: usize) -> u32 {
        at(self.numbers, i)
    }

    // How many words are to be lent, at most so many.
    pub(crate) fn room(&self, i: usize, most: usize) -> usize
        ensures { result ≤ most }
    {
        (self.number(i) as usize).min(most)
    }

    // Where list i ends; 0 where there is none.
    fn end(&self, i: usize) -> usize {
        self.ends.get(i).copied().unwrap_or(0)
    }

    // List i; the empty list where there is none.
    pub(crate) fn list(&self, i: usize) -> &'a [u32]
        ensures { length result.now ≤ length self.now.words.now }
    {
        let start = if i == 0 { 0 } else { self.end(i - 1) };
        self.words.get(start..self.end(i)).unwrap_or(&[])
    }

    // The two maps.
    pub(crate) fn maps(&self) -> Maps<'a> {
        Maps {
            fw: self.list(12),
            wd: self.number(1),
            fx: self.list(13),
            xd: self.number(2),
        }
    }

    // A drawing: six lists from one on.
    pub(crate) fn lists(&self, from: usize) -> Lists<'a>
        requires { from ≤ 6 }
    {
        Lists {
            w: self.list(from),
            x: self.list(from + 1),
            sl: self.list(from + 2),
            sv: self.list(from + 3),
            tl: self.list(from + 4),
            tv: self.list(from + 5),
        }
    }
}

// The number at a place; 0 where there is none.
fn at(numbers: &[u32], i: usize) -> u32 {
    numbers.get(i).copied().unwrap_or(0)
}

// Reads the numbers of a line, as many as there is room for; how many. Each has a byte behind it that is no digit; one that is too large is
// read as the largest there is.
pub(crate) fn numbers(line: &[u8], into: &mut [u32]) -> usize
    ensures { result ≤ length into.new }
{
    let mut count = 0;
    let mut value: u32 = 0;
    for byte in line {
        if count == into.len() {
            break;
        }
        if byte.is_ascii_digit() {
            value = value
                .saturating_mul(10)
                .saturating_add((*byte - b'0') as u32);
        } else {
            into[count] = value;
            count += 1;
            value = 0;
        }
    }
    count
}

// Copies the list that begins these numbers to the front of the room, as far as it holds it; how many entries, and the numbers behind it.
fn put_list<'a>(numbers: &'a [u32], room: &mut [u32]) -> (usize, &'a [u32])
    ensures { result.0 ≤ length room.new }
{
    let Some((mark, entries)) = numbers.split_first() else {
        return (0, &[]);
    };
    let mark = *mark as usize;
    if mark < EQUAL {
        let count = mark.min(room.len());
        for (i, word) in room[..count].iter_mut().enumerate() {
            *word = at(entries, i);
        }
        (count, entries.get(mark..).unwrap_or(&[]))
    } else {
        let count = (mark - EQUAL).min(room.len());
        room[..count].fill(at(entries, 0));
        (count, entries.get(1..).unwrap_or(&[]))
    }
}

// Lays the lists of a case out, one behind the other; where each ends.
pub(crate) fn lay_out(numbers: &[u32], words: &mut [u32], ends: &mut [usize]) {
    let mut rest = numbers.get(HEAD..).unwrap_or(&[]);
    let mut to = 0;
    for end in ends.iter_mut() {
        let (count, behind) = put_list(rest, &mut words[to..]);
        to += count;
        rest = behind;
        *end = to;
    }
}
