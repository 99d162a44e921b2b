// Where a job gets its bytes, and how it reads them.
ghost use Rattle.std.specs.Prelude.{◌≡◌, option_map};
ghost use Rattle.shop_jobs.specs.Input.{
  beside_view,
  folder_of,
  input_view,
  is_settled,
  is_settled_beside,
  is_settled_order,
  is_settled_reading,
  known_order,
  options_of,
  order_of,
  path_beside,
  path_of,
  reading_view,
  reserve_of,
  settled,
  settled_beside,
  settled_order,
  settled_reading,
  settled_volume,
  source_view,
  volume_of,
  volume_view,
};

use a2_device::Order;

/// The file system of a volume, `--fs`.
#[derive(Clone, Copy, PartialEq, Eq)]
pub enum FileSystem {
    /// DOS 3.3.
    Dos,
    /// ProDOS.
    Prodos,
}

/// The order of an image, or by what it is to be found.
#[derive(Clone, Copy, PartialEq, Eq)]
pub enum OrderSaid {
    /// It is this one.
    Is(Order),
    /// By the image's best reading: `auto`.
    ByReading,
    /// By the header of the image's container: `2img`.
    ByContainer,
}

/// What an image is read as.
#[derive(Clone, Copy, PartialEq, Eq)]
pub struct VolumeOptions {
    pub file_system: FileSystem,
    pub order: Order,
    /// Whether files may stand on tracks 1 and 2, where other disks have DOS.
    pub data_disk: bool,
}

/// In which ways the images of a job are read, where it leaves that to them.
#[derive(Clone, Copy, PartialEq, Eq)]
pub struct Ways {
    /// The file system of the volume.
    pub file_system: FileSystem,
    /// The order of the image.
    pub order: Order,
    /// The order of the image beside it.
    pub other_order: Order,
}

/// How the volume of an image is read.
#[derive(PartialEq, Eq, Drop)]
pub struct VolumeReading {
    /// Its file system; `None` is to be found by the image's best reading.
    pub file_system: Option<FileSystem>,
    pub order: OrderSaid,
    /// Whether files may stand on tracks 1 and 2, where other disks have DOS.
    pub data_disk: bool,
    /// The places that are kept for the system beside its own, as the words name them.
    pub reserve: Option<String>,
}

/// How a job reads its image.
#[derive(PartialEq, Eq)]
pub enum ImageReading {
    /// As bytes, whatever they are.
    Bytes,
    /// As sectors in an order.
    Sectors(OrderSaid),
    /// As a volume.
    Volume(VolumeReading),
}

impl Drop for ImageReading {
    fn drop(self) {
        match self {
            ImageReading::Bytes => {}
            ImageReading::Sectors(_) => {}
            ImageReading::Volume(_) => {}
        }
    }
}

/// Where the bytes of an image come from.
#[derive(PartialEq, Eq, Drop)]
pub enum Source {
    /// There is no image.
    Nothing,
    /// Standard input.
    StandardInput,
    /// The file of this path.
    File(String),
}

/// What a job reads beside its image.
#[derive(PartialEq, Eq)]
pub enum Beside {
    /// Nothing.
    Nothing,
    /// The file of this path.
    File(String),
    /// Another image.
    Image { source: Source, order: OrderSaid },
    /// The files of the folder of this path.
    Folder(String),
}

impl Drop for Beside {
    fn drop(self) {
        match self {
            Beside::Nothing => {}
            Beside::File(_) => {}
            Beside::Image {
                source: _,
                order: _,
            } => {}
            Beside::Folder(_) => {}
        }
    }
}

/// What a job reads.
#[derive(PartialEq, Eq)]
pub struct Input {
    pub image: Source,
    pub reading: ImageReading,
    pub beside: Beside,
}

impl Drop for Input {
    fn drop(self) {
        let Input {
            image: _,
            reading: _,
            beside: _,
        } = self;
    }
}

impl OrderSaid {
    /// The order, where it is known.
    pub fn known(self) -> Option<Order>
        ensures { result ≡ known_order self }
    {
        match self {
            OrderSaid::Is(order) => Some(order),
            OrderSaid::ByReading | OrderSaid::ByContainer => None,
        }
    }

    fn is_settled(self) -> bool
        ensures { result ≡ is_settled_order self }
    {
        matches!(self, OrderSaid::Is(_))
    }

    // The same order, or this one where it is to be found.
    fn settled(self, found: Order) -> OrderSaid
        ensures { result ≡ settled_order found self }
    {
        match self {
            OrderSaid::Is(order) => OrderSaid::Is(order),
            OrderSaid::ByReading | OrderSaid::ByContainer => OrderSaid::Is(found),
        }
    }
}

impl VolumeReading {
    // What the image is read as, where its file system and its order are known.
    fn options(&self) -> Option<VolumeOptions>
        ensures { result ≡ options_of (volume_view self.now) }
    {
        let file_system = self.file_system?;
        let order = self.order.known()?;
        Some(VolumeOptions {
            file_system,
            order,
            data_disk: self.data_disk,
        })
    }

    // Puts the ways of the images into what is left to them.
    fn settle(&mut self, ways: Ways)
        ensures { volume_view self.new ≡ settled_volume ways (volume_view self.old) }
    {
        if self.file_system.is_none() {
            self.file_system = Some(ways.file_system);
        }
        self.order = self.order.settled(ways.order);
    }
}

impl ImageReading {
    /// The order that is said of the image; `None` where it is read as bytes.
    pub fn order(&self) -> Option<OrderSaid>
        ensures { result ≡ order_of (reading_view self.now) }
    {
        match self {
            ImageReading::Bytes => None,
            ImageReading::Sectors(order) => Some(*order),
            ImageReading::Volume(volume) => Some(volume.order),
        }
    }

    /// What the image is read as, where it is read as a volume, and its file system and its order are known.
    pub fn volume(&self) -> Option<VolumeOptions>
        ensures { result ≡ volume_of (reading_view self.now) }
    {
        match self {
            ImageReading::Volume(volume) => volume.options(),
            ImageReading::Bytes | ImageReading::Sectors(_) => None,
        }
    }

    /// The places that are kept for the system of the volume beside its own, as the words name them.
    pub fn reserve(&self) -> Option<&str>
        ensures { option_map (λ s. s.now) result ≡ reserve_of (reading_view self.now) }
    {
        match self {
            ImageReading::Volume(volume) => volume.reserve.as_deref(),
            ImageReading::Bytes | ImageReading::Sectors(_) => None,
        }
    }

    // Whether it leaves nothing to the image.
    fn is_settled(&self) -> bool
        ensures { result ≡ is_settled_reading (reading_view self.now) }
    {
        match self {
            ImageReading::Bytes => true,
            ImageReading::Sectors(order) => order.is_settled(),
            ImageReading::Volume(volume) => {
                volume.file_system.is_some() && volume.order.is_settled()
            }
        }
    }

    // Puts the ways of the images into what is left to them.
    fn settle(&mut self, ways: Ways)
        ensures { reading_view self.new ≡ settled_reading ways (reading_view self.old) }
    {
        match self {
            ImageReading::Bytes => {}
            ImageReading::Sectors(order) => *order = order.settled(ways.order),
            ImageReading::Volume(volume) => volume.settle(ways),
        }
    }
}

impl Source {
    /// The path of the file.
    pub fn path(&self) -> Option<&str>
        ensures { option_map (λ s. s.now) result ≡ path_of (source_view self.now) }
    {
        match self {
            Source::File(path) => Some(path.as_str()),
            Source::Nothing | Source::StandardInput => None,
        }
    }
}

impl Beside {
    /// The path of the file, or of that of the image.
    pub fn path(&self) -> Option<&str>
        ensures { option_map (λ s. s.now) result ≡ path_beside (beside_view self.now) }
    {
        match self {
            Beside::File(path) => Some(path.as_str()),
            Beside::Image { source, .. } => source.path(),
            Beside::Nothing | Beside::Folder(_) => None,
        }
    }

    /// The path of the folder.
    pub fn folder(&self) -> Option<&str>
        ensures { option_map (λ s. s.now) result ≡ folder_of (beside_view self.now) }
    {
        match self {
            Beside::Folder(path) => Some(path.as_str()),
            Beside::Nothing | Beside::File(_) | Beside::Image { .. } => None,
        }
    }

    // Whether nothing of it is left to an image.
    fn is_settled(&self) -> bool
        ensures { result ≡ is_settled_beside (beside_view self.now) }
    {
        match self {
            Beside::Image { order, .. } => order.is_settled(),
            Beside::Nothing | Beside::File(_) | Beside::Folder(_) => true,
        }
    }

    // Puts the order of the other image into what is left to that.
    fn settle(&mut self, ways: Ways)
        ensures { beside_view self.new ≡ settled_beside ways (beside_view self.old) }
    {
        match self {
            Beside::Image { order, .. } => *order = order.settled(ways.other_order),
            Beside::Nothing | Beside::File(_) | Beside::Folder(_) => {}
        }
    }
}

impl Input {
    /// Whether it is said how each image is read: nothing of it is left to the images.
    pub fn is_settled(&self) -> bool
        ensures { result ≡ is_settled (input_view self.now) }
    {
        self.reading.is_settled() && self.beside.is_settled()
    }

    /// Puts the ways in which the images are read into what is left to them; what is said stays.
    pub fn settle(&mut self, ways: Ways)
        ensures { input_view self.new ≡ settled ways (input_view self.old) }
    {
        self.reading.settle(ways);
        self.beside.settle(ways);
    }
}
