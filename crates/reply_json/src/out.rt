use edge_face::Text;
use sqlite_items::Items;

/// A JSON value to be sent.
#[cycle(out)]
#[derive(Debug, Drop)]
pub enum Out {
    Null,
    Flag(bool),
    Num(i128),
    Word(Text),
    List(Items<Out>),
    /// The members in the order in which they are printed.
    Object(Items<Member>),
}

/// One member of an object.
#[cycle(out)]
#[derive(Debug, Drop)]
pub struct Member {
    pub name: Text,
    pub value: Out,
}
