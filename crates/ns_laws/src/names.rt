//! Laws of names: how long they are, and which characters they have; of the order of classes; and of ids.

ghost use Rattle.ns_laws.specs.Names.{
  NamesOfNamespaces,
  NamesOfNodes,
  NamesOfPools,
  NamesOfJobs,
  TextsOfSecrets,
  NamesAreRead,
  SameNames,
  NameOrder,
  AttributesAreOrdered,
  ClassesAreOrdered,
  IdsDiffer,
  IdsReadBack,
  IdsHaveKinds,
  AreWrittenSo,
};

/// A text is a name of a namespace, or of a policy, exactly if it has 1 to 128 characters, each a letter, a digit or
/// `-`.
pub fn names_of_namespaces()
    ensures { NamesOfNamespaces }
{}

/// A text is a name of a quota, or of a node, exactly if it has 1 to 128 characters, each a letter, a digit, `-` or
/// `_`.
pub fn names_of_nodes()
    ensures { NamesOfNodes }
{}

/// A text is a name of a pool exactly if it is such a name too, and is not `all`.
pub fn names_of_pools()
    ensures { NamesOfPools }
{}

/// A text is the id of a job, or a name of a task group or of a task, exactly if it has 1 to 128 printable characters of
/// ASCII, none a space.
pub fn names_of_jobs()
    ensures { NamesOfJobs }
{}

/// A text is a secret exactly if it has 1 to 64 printable characters of ASCII, none a space.
pub fn texts_of_secrets()
    ensures { TextsOfSecrets }
{}

/// A text is read as a name of a kind exactly if it has the length and the characters of one, and it stays as it is.
pub fn names_are_read()
    ensures { NamesAreRead }
{}

/// Two names are the same exactly if they are the same text: a letter in upper case is another than in lower case.
pub fn same_names()
    ensures { SameNames }
{}

/// A name comes before another exactly if the other is that name with more after it, or if it has the lesser character
/// where they first differ.
pub fn name_order()
    ensures { NameOrder }
{}

/// Attributes have an order. Two are the same exactly if their keys are and their values are; of two others one comes
/// before the other, not both; and what comes before another comes before all that come after that one.
pub fn attributes_are_ordered()
    ensures { AttributesAreOrdered }
{}

/// Classes have such an order too. Two are the same exactly if their names are and their attributes are, one by one.
pub fn classes_are_ordered()
    ensures { ClassesAreOrdered }
{}

/// No two evaluations of a namespace have the same id, no two allocations have the same, and no allocation has the id of
/// an evaluation.
pub fn ids_differ()
    ensures { IdsDiffer }
{}

/// The id of evaluation n is read as the number 2^64 + n, and that of allocation n as twice 2^64 and n.
pub fn ids_read_back()
    ensures { IdsReadBack }
{}

/// The id of an evaluation is an id of an evaluation and no id of an allocation, and the other way round.
pub fn ids_have_kinds()
    ensures { IdsHaveKinds }
{}

/// The first evaluation of a namespace has the id `00000000-0000-0001-0000-000000000001`, and its first allocation
/// `00000000-0000-0002-0000-000000000001`. Higher numbers end in their hexadecimal digits, in lower case.
pub fn ids_are_written_so()
    ensures { AreWrittenSo }
{}
