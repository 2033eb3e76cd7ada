//! Laws of lanes' books. They do nothing.
ghost use Rattle.std.specs.Prelude.{◌≡◌, ◌≤◌, ◌∷◌, [], ℕ, List, None};
ghost use Rattle.std.specs.List.{AllByRecursion};
ghost use Rattle.audit.specs.declared.account.Account.{Account};
ghost use Rattle.audit.specs.declared.account.SessionEnd.{SessionEnd};
ghost use Rattle.audit.specs.IsLawful.{IsLawful};
ghost use Rattle.audit.specs.Printable.{IsPrintable};
ghost use Rattle.link_lanes.specs.books.LaneBook.{IsLaneBook, LaneBook};
ghost use Rattle.link_lanes.specs.books.Serving.{IsFreshLink, served_after, shut_link};
ghost use Rattle.link_lanes.specs.books.Shown.{ShownLink};
ghost use Rattle.link_lanes.specs.books.Together.{AreAllBooks, AreServed};
ghost use Rattle.partlog.specs.Moment.{moment_of};
ghost use Rattle.session.specs.Flows.{LinkView};
ghost use Rattle.session.specs.Onwards.{HasGoneOn};
ghost use Rattle.session.specs.Served.{HasServed};
ghost use Rattle.shared_broker.specs.Passes.{BrokerView, PassView};

/// Law: a lane that held one link, served it over a new link and retired it, has it in its book, with the transcript of its number. The
/// transcript was ended: the pass has none open.
pub fn served_links_are_booked()
    ensures { (broker : BrokerView) (book : LaneBook) (n told : ℕ) (answer : SessionEnd) (new : PassView) (before now : LinkView)
        → IsLaneBook broker (n ∷ []) book → book.told ≤ told → IsFreshLink before → HasServed n answer book.pass new before now → HasGoneOn told book.pass new
        → new.waits ≡ None → new.going ≡ None → IsLaneBook broker [] (served_after book new told n (shut_link now)) }
{}

/// Law: the books of all lanes give each link that was accepted one transcript, which fits what its peer sent and was sent. And no tick of
/// the account is past a moment that no lane was told a later one than.
pub fn books_are_served()
    ensures served { (broker : BrokerView) (books : List LaneBook) (account : Account) (given : ℕ) (retired : List (ℕ × ShownLink))
        → AreAllBooks broker books account given retired → AreServed account given retired }
    ensures ticks { (broker : BrokerView) (books : List LaneBook) (account : Account) (given moment : ℕ) (retired : List (ℕ × ShownLink))
        → AreAllBooks broker books account given retired → AllByRecursion (λ (book : LaneBook). book.told ≤ moment) books → moment_of account.clock ≤ moment }
{}

/// Law: a lawful account of links that were served may be printed.
pub fn served_accounts_are_printable()
    ensures { (account : Account) (given : ℕ) (retired : List (ℕ × ShownLink)) → IsLawful account → AreServed account given retired → IsPrintable account }
{}
