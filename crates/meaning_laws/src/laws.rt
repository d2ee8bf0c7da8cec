//! Laws of the meaning of numbered programs. Each is for every sound program and every entry, and so its function does nothing.

ghost use Rattle.meaning_laws.specs.BodyLaws.{EntriesFollow, ExpressionsFollow, StatementsFollow, ExpressionsOpenNone, FirstPartsOpen, StatementsOpen, CallsGoBySite};
ghost use Rattle.meaning_laws.specs.ThisLaws.{CallsMayEnter, SupersMayEnter, ConstructorsMayEnter, NewObjectsMayEnter, ExpressionsLeaveThis, StatementsLeaveThis, AllEntriesFit, DeclaredFieldsAreThere, ListsAreThere};
ghost use Rattle.meaning_laws.specs.Laws.{CallsGoByNumbers, TargetsTakeTheCall, NoTurnComesBack, GlobalsStay, EntriesLeaveTheFrame, ObjectsHaveTheirFields, AddressesKeepTheirClass, EntryPointsRun};

/// Where a call goes is what the lookup by numbers says, and the member takes the call.
pub fn calls_go_by_numbers()
    ensures same { CallsGoByNumbers }
    ensures answers { TargetsTakeTheCall }
{}

/// What an entry does to the store: no turn comes back, what was told is still told, and the top-level variables are as many.
pub fn entries_go_on()
    ensures turns { NoTurnComesBack }
    ensures globals { GlobalsStay }
{}

/// An entered body leaves `this` and the variables as they were.
pub fn entries_leave_the_frame()
    ensures { EntriesLeaveTheFrame }
{}

/// Objects have the fields of their class, and addresses keep their class.
pub fn heaps_stay_sound()
    ensures fields { ObjectsHaveTheirFields }
    ensures classes { AddressesKeepTheirClass }
    ensures runs { EntryPointsRun }
{}

/// The same of all that an entry, an expression and a statement lead to, together.
pub fn bodies_go_on()
    ensures entries { EntriesFollow }
    ensures expressions { ExpressionsFollow }
    ensures statements { StatementsFollow }
{}

/// How many variables are open behind an expression, a first part and a statement.
pub fn variables_are_counted()
    ensures expressions { ExpressionsOpenNone }
    ensures firsts { FirstPartsOpen }
    ensures statements { StatementsOpen }
{}

/// The selector of a call is that of its site.
pub fn calls_go_by_site()
    ensures { CallsGoBySite }
{}

/// What a body enters has for its `this` an object of the class that holds it, or of one below it.
pub fn this_is_of_its_class()
    ensures calls { CallsMayEnter }
    ensures supers { SupersMayEnter }
    ensures constructors { ConstructorsMayEnter }
    ensures news { NewObjectsMayEnter }
{}

/// In a body `this` stays such an object.
pub fn this_stays_of_its_class()
    ensures expressions { ExpressionsLeaveThis }
    ensures statements { StatementsLeaveThis }
{}

/// Each body that is entered has such a `this`.
pub fn all_entries_fit()
    ensures { AllEntriesFit }
{}

/// On such a heap an object has each field that its class declares, or one above it, and what is of class List is a list.
pub fn things_are_of_their_class()
    ensures fields { DeclaredFieldsAreThere }
    ensures lists { ListsAreThere }
{}
