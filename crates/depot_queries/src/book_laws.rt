//! What holds of every book.
ghost use Rattle.std.specs.Prelude.{List, ◌++◌, take};
ghost use Rattle.depot_base.specs.declared.update.Update.{Update};
ghost use Rattle.depot_queries.specs.Books.{IsBookOf, items_read};
ghost use Rattle.depot_queries.specs.declared.book.Book.{Book};

/// A book of some updates has read a prefix of these and of whatever follows them. So it can be caught up with each
/// later graph, since a graph only grows at its end.
pub fn books_go_on()
    ensures { (us more : List Update) (book : Book) → IsBookOf us book → IsBookOf (take (items_read book) (us ++ more)) book }
{}
