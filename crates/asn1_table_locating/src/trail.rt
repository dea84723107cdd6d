//! The path to what comes next of a value whose tape ends early.
use asn1_schema_tags::Chosen;
use asn1_table_json_writing::{Step, push_step};
use asn1_table_names::{Names, Part, alternative_of, component_at};
use asn1_table_tape::{Event, elements_at};
use asn1_table_types::Types;
use std::alloc::{AllocError, Global};

/// A value with parts that has begun, and its part that comes next. Types are named by their indices in the table.
#[derive(Clone, Copy)]
enum Level {
    /// A SEQUENCE OF or SET OF.
    Elements { place: usize, next: usize },
    /// A SEQUENCE or SET.
    Parts { place: usize, next: Part },
    /// A CHOICE.
    Alternative { place: usize, chosen: Chosen },
}

impl Level {
    /// After the value of a part.
    fn after_value(self) -> Self {
        match self {
            Level::Elements { place, next } => Level::Elements {
                place,
                next: next.saturating_add(1),
            },
            Level::Parts {
                place,
                next: Part::Addition(index),
            } => Level::Parts {
                place,
                next: Part::Addition(index),
            },
            other => other.after_part(),
        }
    }

    /// After a component that is absent, or the end of an addition.
    fn after_part(self) -> Self {
        match self {
            Level::Parts { place, next } => Level::Parts {
                place,
                next: part_after(next),
            },
            other => other,
        }
    }

    /// Before the component that was read last.
    fn before_part(self) -> Self {
        match self {
            Level::Parts { place, next } => Level::Parts {
                place,
                next: part_before(next),
            },
            other => other,
        }
    }

    /// The additions begin.
    fn with_additions(self) -> Self {
        match self {
            Level::Parts { place, .. } => Level::Parts {
                place,
                next: Part::Addition(0),
            },
            other => other,
        }
    }

    /// A group of additions begins.
    fn with_group(self) -> Self {
        match self {
            Level::Parts {
                place,
                next: Part::Addition(addition),
            } => Level::Parts {
                place,
                next: Part::Grouped {
                    addition,
                    component: 0,
                },
            },
            other => other,
        }
    }

    /// After the end of a group of additions, if one has begun.
    fn after_group(self) -> Option<Self> {
        match self {
            Level::Parts {
                place,
                next: Part::Grouped { addition, .. },
            } => {
                Some(Level::Parts {
                    place,
                    next: Part::Addition(addition),
                })
            }
            _ => None,
        }
    }

    /// The index of the type of the part that comes next, if there is one.
    fn next_place(self, types: &Types) -> Option<usize> {
        match self {
            Level::Elements { place, .. } => elements_at(types, place),
            Level::Parts { place, next } => Some(component_at(types, place, next)?.place),
            Level::Alternative { place, chosen } => alternative_of(types.node(place)?, chosen),
        }
    }

    /// The step to the part that comes next.
    fn step(self) -> Step<'static> {
        match self {
            Level::Elements { next, .. } => Step::Element(next),
            Level::Parts { place, next } => Step::Component(place, next),
            Level::Alternative { place, chosen } => Step::Alternative(place, chosen),
        }
    }
}

/// The component after another one.
fn part_after(part: Part) -> Part {
    match part {
        Part::Root(index) => Part::Root(index.saturating_add(1)),
        Part::Addition(index) => Part::Addition(index.saturating_add(1)),
        Part::Grouped {
            addition,
            component,
        } => Part::Grouped {
            addition,
            component: component.saturating_add(1),
        },
    }
}

/// The root component, or that of a group, before another one.
fn part_before(part: Part) -> Part {
    match part {
        Part::Root(index) => Part::Root(index.saturating_sub(1)),
        Part::Addition(index) => Part::Addition(index),
        Part::Grouped {
            addition,
            component,
        } => Part::Grouped {
            addition,
            component: component.saturating_sub(1),
        },
    }
}

/// The values with parts that have begun on a tape, the innermost last.
#[derive(Drop)]
pub struct Trail<'a> {
    alloc: Global,
    types: &'a Types,
    /// The index of the type of the whole value.
    place: usize,
    open: Vec<Level>,
}

impl<'a> Trail<'a> {
    /// Before a value of the type at an index.
    pub fn new(alloc: Global, types: &'a Types, place: usize) -> Self {
        Trail {
            alloc,
            types,
            place,
            open: Vec::new(alloc),
        }
    }

    /// After the events of a tape.
    pub fn follow(&mut self, tape: &[Event]) -> Result<(), AllocError> {
        for event in tape {
            self.turn(event)?;
        }
        Ok(())
    }

    /// After an event.
    fn turn(&mut self, event: &Event) -> Result<(), AllocError> {
        match event {
            Event::ListBegins(place, _) => {
                self.open.push(Level::Elements {
                    place: *place,
                    next: 0,
                })?
            }
            Event::SequenceBegins(..) | Event::SetBegins(..) => {
                let place = self.next_place();
                self.open.push(Level::Parts {
                    place,
                    next: Part::Root(0),
                })?
            }
            Event::ChoiceBegins(place, chosen) => {
                self.open.push(Level::Alternative {
                    place: *place,
                    chosen: *chosen,
                })?
            }
            Event::GroupBegins(_) => self.change(|level| level.with_group()),
            Event::PresenceBit(false) | Event::Addition(false) | Event::AdditionEnds => {
                self.change(|level| level.after_part())
            }
            Event::AdditionsBegin(_) => self.change(|level| level.with_additions()),
            Event::Further(_) | Event::PresenceBit(true) | Event::Addition(true) => {}
            Event::Ends => self.end()?,
            _ => self.change(|level| level.after_value()),
        }
        Ok(())
    }

    /// A value with parts ends, or a group of additions.
    fn end(&mut self) -> Result<(), AllocError> {
        if let Some(level) = self.open.pop() {
            match level.after_group() {
                Some(after) => self.open.push(after)?,
                None => self.change(|around| around.after_value()),
            }
        }
        Ok(())
    }

    /// The index of the type of the value that comes next.
    fn next_place(&self) -> usize {
        match self.open.last() {
            None => self.place,
            Some(level) => level.next_place(self.types).unwrap_or(usize::MAX),
        }
    }

    /// The innermost value, changed.
    fn change<F: Fn(Level) -> Level>(&mut self, to: F)
        requires { F.IsAlwaysCallable to }
    {
        if let Some(level) = self.open.last_mut() {
            *level = to(*level);
        }
    }

    /// Back to the component that was read last.
    pub fn step_back(&mut self) {
        self.change(|level| level.before_part());
    }

    /// The path to what comes next: to the innermost value, and to its part that comes next if there is one.
    pub fn path(&self, names: &Names) -> Result<String, AllocError> {
        let mut path = String::new(self.alloc);
        for level in self.open.iter() {
            if level.next_place(self.types).is_some() {
                push_step(self.alloc, self.types, names, &mut path, level.step())?;
            }
        }
        Ok(path)
    }
}
